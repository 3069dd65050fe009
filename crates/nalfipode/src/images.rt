// The image calls.
ghost use Rattle.nalfipode.specs.Images.{WriteOut, VerifyOut, DescribeOut, LookOut};

// Value: the length written, or where the output is too short the length needed.
pub fn nalfipode_image_write(
    table: &[u32],
    epoch: u64,
    out: &mut [u8],
    values: &mut [u64; 1],
) -> u32
    ensures { WriteOut table.now epoch out.old result out.new values.new }
{
    match image_write::write(table, epoch, out) {
        Ok(length) => {
            *values = [length as u64];
            0
        }
        Err(e) => {
            *values = [e.needed() as u64];
            e.number()
        }
    }
}

// It has no values: 0 is yes.
pub fn nalfipode_image_verify(bytes: &[u8]) -> u32
    ensures { VerifyOut bytes.now result }
{
    match image_verify::verify(bytes) {
        Ok(()) => 0,
        Err(e) => e.number(),
    }
}

// Values: nodes, data entries, epoch. Of use for bytes that the checker accepts.
pub fn nalfipode_image_describe(bytes: &[u8], values: &mut [u64; 3]) -> u32
    ensures { DescribeOut bytes.now result values.new }
{
    match image_verify::describe(bytes) {
        Ok(d) => {
            *values = [d.nodes as u64, d.entries as u64, d.epoch];
            0
        }
        Err(e) => {
            *values = [0; 3];
            e.number()
        }
    }
}

// Values: 1 for a zone and 0 for none, its number.
pub fn nalfipode_image_look(bytes: &[u8], key: &[u32; 4], values: &mut [u32; 2]) -> u32
    ensures { LookOut bytes.now key.now result values.new }
{
    match image_lookup::look(bytes, *key) {
        Ok(found) => {
            *values = match found {
                Some(zone) => [1, zone],
                None => [0, 0],
            };
            0
        }
        Err(e) => {
            *values = [0; 2];
            e.number()
        }
    }
}
