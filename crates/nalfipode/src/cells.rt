// A position's cell.
ghost use Rattle.nalfipode.specs.Cells.{CellOut};

// Values: the four key words and the width.
pub fn nalfipode_cell(longitude: i32, latitude: i32, values: &mut [u32; 5]) -> u32
    ensures { CellOut longitude latitude result values.new }
{
    match ground::cell(longitude, latitude) {
        Ok(p) => {
            *values = [p.w0, p.w1, p.w2, p.w3, p.width];
            0
        }
        Err(e) => {
            *values = [0; 5];
            e.number()
        }
    }
}
