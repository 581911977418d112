// A joint: a beam on a column flange through an end plate, or one on each of the column's two faces. Both share the column and the bolts;
// what each has of its own is its face. Each comment gives the field's number (rule 2.1) and unit; lengths are in tenths of a millimetre.
#![tactic(auto)]

ghost use Rattle.std.specs.Prelude.{◌≡◌, [], ◌∷◌, ◌+◌, ◌<◌};
ghost use Rattle.arithmetic.specs.Range.{within, ◌to◌};
ghost use Rattle.arithmetic.specs.Table.{one_of};
ghost use Rattle.joint.specs.Ranges.{row_counts, grades, levers};
ghost use Rattle.joint.specs.Faces.{two_faced, first_rows, first_face};
ghost use Rattle.joint.specs.Fields.{found_by, field_check, head_checks, grade_checks, column_checks, beam_checks};
ghost use Rattle.joint.specs.Fields.{plate_checks, weld_checks, load_checks, lever_checks};

// Fields 5, 8 to 13 and 30.
#[derive(Clone, Copy)]
pub struct Column {
    // 5: steel grade, 275 or 355
    pub grade: u32,
    // 8: depth Dc
    pub depth: u32,
    // 9: width Bc
    pub width: u32,
    // 10: flange thickness Tc
    pub flange: u32,
    // 11: web thickness tc
    pub web: u32,
    // 12: root radius rc
    pub radius: u32,
    // 13: depth between fillets dc
    pub clear: u32,
    // 30: z, from the compression force to the nearer end of the column
    pub end_distance: u32,
}

// Fields 3 and 4.
#[derive(Clone, Copy)]
pub struct Bolts {
    // 3: class, 46, 88 or 109
    pub class: u32,
    // 4: diameter δ, in millimetres, one of the sizes of the bolt table in force
    pub diameter: u32,
}

// Fields 6 and 14 to 17.
#[derive(Clone, Copy)]
pub struct Beam {
    // 6: steel grade, 275 or 355
    pub grade: u32,
    // 14: depth Db
    pub depth: u32,
    // 15: width Bb
    pub width: u32,
    // 16: flange thickness Tb
    pub flange: u32,
    // 17: web thickness tb
    pub web: u32,
}

// Fields 7, 18 and 19.
#[derive(Clone, Copy)]
pub struct Plate {
    // 7: steel grade, 275 or 355
    pub grade: u32,
    // 18: width bp
    pub width: u32,
    // 19: thickness tp
    pub thickness: u32,
}

// How the bolts stand on the plate: fields 20 to 22.
#[derive(Clone, Copy)]
pub struct Layout {
    // 20: gauge g, between the two bolts of a row
    pub gauge: u32,
    // 21: edge distance ex, from row 1 to the plate's top; 0 if flush
    pub edge: u32,
    // 22: alpha, for the row under the beam flange, in hundredths
    pub alpha: u32,
}

// Fields 23 to 25.
#[derive(Clone, Copy)]
pub struct Welds {
    // 23: leg of the flange weld, sf
    pub flange: u32,
    // 24: leg of the web weld, sw
    pub web: u32,
    // 25: length of the web weld, Lw
    pub length: u32,
}

// Fields 27 to 29.
#[derive(Clone, Copy)]
pub struct Loads {
    // 27: axial force N, newtons, compression positive
    pub axial: i32,
    // 28: shear force V, newtons
    pub shear: u32,
    // 29: design moment M, newton metres
    pub moment: u32,
}

// One face of the column, with the beam on it. Grades, class and flag are numbers, as every field is: the rules take any joint, and refusal
// 10 tells what is out of range.
#[derive(Clone, Copy)]
pub struct Face {
    // 1: count of bolt rows n, 0 to 8; a joint's first face has it as stored, raised by 16 where a second face follows
    pub rows: u32,
    // 2: 1 if row 1 stands above the beam flange, else 0
    pub extended: u32,
    pub beam: Beam,
    pub plate: Plate,
    pub layout: Layout,
    pub welds: Welds,
    // 26: count of rows that only take shear
    pub shear_rows: u32,
    pub loads: Loads,
    // 30+k: lever arm h of row k, from the centre of the compression flange; 0 past row n
    pub levers: [u32; 8],
}

#[derive(Clone, Copy)]
pub struct Joint {
    pub column: Column,
    pub bolts: Bolts,
    pub face: Face,
    // the second face, with fields 1, 2, 6, 7, 14 to 29 and levers of its own; where there is none it isn't looked at, and Read gives 0. No
    // Option: field 1 says whether there is one, as the file and the words have it, and the rules take any joint
    pub other: Face,
}

// Whether field 1 says that a second face follows.
#[tactic(auto, unfolding(crate::specs::Faces::two_faced))]
pub fn is_two_faced(count: u32) -> bool
    ensures { result ≡ two_faced count }
{
    (16..=24).contains(&count)
}

// The rows of the first face by field 1.
#[tactic(auto, using(crate::proofs::Faces::marked), unfolding(crate::specs::Faces::first_rows))]
pub fn first_rows(count: u32) -> u32
    ensures { result ≡ first_rows count }
{
    if is_two_faced(count) {
        count - 16
    } else {
        count
    }
}

// The first face with its rows, not marked.
#[tactic(auto, unfolding(crate::specs::Faces::first_face))]
pub fn first_face(face: Face) -> Face
    ensures { result ≡ first_face face }
{
    let mut first = face;
    first.rows = first_rows(face.rows);
    first
}

// Refusal 10: the first field that is out of its range, by its number.
#[derive(Clone, Copy, PartialEq, Eq, Debug)]
pub struct OutOfRange {
    pub field: u32,
}

// Checks the fields of a column, its bolts and one face, in file order, and stops at the first that fails. Of field 4 it goes by what the
// bolt table in force lists for it.
#[tactic(auto, using(crate::proofs::Fields::part_by_part))]
pub fn check_fields(
    column: Column,
    bolts: Bolts,
    area: Option<u32>,
    face: Face,
) -> Result<(), OutOfRange>
    ensures { result ≡ field_check column bolts area face }
{
    check_head(face.rows, face.extended, bolts.class, area)?;
    check_grades(column.grade, face.beam.grade, face.plate.grade)?;
    check_column(column)?;
    check_beam(face.beam)?;
    check_plate(face.extended, face.plate, face.layout)?;
    check_welds(face.welds, face.shear_rows)?;
    check_loads(face.loads, column.end_distance)?;
    check_levers(face.rows, face.levers)
}

// Refusal 3's question: whether a face may have so many rows.
pub fn is_row_count(count: usize) -> bool
    ensures { result ≡ within row_counts count }
{
    (0..=8).contains(&count)
}

// A field by its test.
#[tactic(auto, using(crate::proofs::Fields::one_check))]
fn holds(field: u32, test: bool) -> Result<(), OutOfRange>
    ensures { result ≡ found_by ((field, test) ∷ []) }
{
    if test {
        Ok(())
    } else {
        Err(OutOfRange { field })
    }
}

// A field that goes from low to high.
fn in_range(field: u32, value: u32, low: u32, high: u32) -> Result<(), OutOfRange>
    ensures { result ≡ found_by ((field, within (low to high) value) ∷ []) }
{
    holds(field, (low..=high).contains(&value))
}

// A field that is a steel grade.
fn is_grade(field: u32, grade: u32) -> Result<(), OutOfRange>
    ensures { result ≡ found_by ((field, one_of grades grade) ∷ []) }
{
    holds(field, matches!(grade, 275 | 355))
}

// Fields 1 to 4. A plate with no rows is flush.
#[tactic(auto, using(crate::proofs::Fields::check_by_check))]
fn check_head(rows: u32, extended: u32, class: u32, area: Option<u32>) -> Result<(), OutOfRange>
    ensures { result ≡ found_by (head_checks rows extended class area) }
{
    in_range(1, rows, 0, 8)?;
    let most = if rows == 0 { 0 } else { 1 };
    in_range(2, extended, 0, most)?;
    holds(3, matches!(class, 46 | 88 | 109))?;
    holds(4, area.is_some())
}

// Fields 5 to 7.
#[tactic(auto, using(crate::proofs::Fields::check_by_check))]
fn check_grades(column: u32, beam: u32, plate: u32) -> Result<(), OutOfRange>
    ensures { result ≡ found_by (grade_checks column beam plate) }
{
    is_grade(5, column)?;
    is_grade(6, beam)?;
    is_grade(7, plate)
}

// Fields 8 to 13.
#[tactic(auto, using(crate::proofs::Fields::check_by_check))]
fn check_column(column: Column) -> Result<(), OutOfRange>
    ensures { result ≡ found_by (column_checks column) }
{
    in_range(8, column.depth, 1000, 15000)?;
    in_range(9, column.width, 500, 6000)?;
    in_range(10, column.flange, 40, 500)?;
    in_range(11, column.web, 30, 400)?;
    in_range(12, column.radius, 0, 400)?;
    in_range(13, column.clear, 500, 14000)
}

// Fields 14 to 17.
#[tactic(auto, using(crate::proofs::Fields::check_by_check))]
fn check_beam(beam: Beam) -> Result<(), OutOfRange>
    ensures { result ≡ found_by (beam_checks beam) }
{
    in_range(14, beam.depth, 1000, 15000)?;
    in_range(15, beam.width, 500, 6000)?;
    in_range(16, beam.flange, 40, 500)?;
    in_range(17, beam.web, 30, 400)
}

// Fields 18 to 22. The edge distance is 0 on a flush plate.
#[tactic(auto, using(crate::proofs::Fields::check_by_check))]
fn check_plate(extended: u32, plate: Plate, layout: Layout) -> Result<(), OutOfRange>
    ensures { result ≡ found_by (plate_checks extended plate layout) }
{
    in_range(18, plate.width, 500, 6000)?;
    in_range(19, plate.thickness, 60, 500)?;
    in_range(20, layout.gauge, 300, 3000)?;
    let (low, high) = if extended == 0 { (0, 0) } else { (150, 2000) };
    in_range(21, layout.edge, low, high)?;
    in_range(22, layout.alpha, 400, 800)
}

// Fields 23 to 26.
#[tactic(auto, using(crate::proofs::Fields::check_by_check))]
fn check_welds(welds: Welds, shear_rows: u32) -> Result<(), OutOfRange>
    ensures { result ≡ found_by (weld_checks welds shear_rows) }
{
    in_range(23, welds.flange, 30, 250)?;
    in_range(24, welds.web, 30, 250)?;
    in_range(25, welds.length, 0, 15000)?;
    in_range(26, shear_rows, 0, 8)
}

// Fields 27 to 30: the loads, and the column's z, which comes after them.
#[tactic(auto, using(crate::proofs::Fields::check_by_check))]
fn check_loads(loads: Loads, end_distance: u32) -> Result<(), OutOfRange>
    ensures { result ≡ found_by (load_checks loads end_distance) }
{
    holds(27, (-10000000..=10000000).contains(&loads.axial))?;
    in_range(28, loads.shear, 0, 10000000)?;
    in_range(29, loads.moment, 0, 10000000)?;
    in_range(30, end_distance, 1, 15000)
}

// Fields 31 to 38: the levers of the rows, and the spare ones, which are 0. A row is below 8, so `as` keeps it; `try_from` would unwrap.
fn check_levers(rows: u32, levers: [u32; 8]) -> Result<(), OutOfRange>
    ensures { result ≡ found_by (lever_checks rows 0 levers) }
{
    for (row, &lever) in levers.iter().enumerate() {
        check_lever(rows, row as u32, lever)?;
    }
    Ok(())
}

// The lever of a row, which counts from 0.
fn check_lever(rows: u32, row: u32, lever: u32) -> Result<(), OutOfRange>
    requires { row < row_counts.high }
    ensures { result ≡ found_by ((31 + row, within (levers rows row) lever) ∷ []) }
{
    if row < rows {
        in_range(31 + row, lever, 1, 20000)
    } else {
        in_range(31 + row, lever, 0, 0)
    }
}
