// Fetch and longest match.
ghost use Rattle.nalfipode.specs.Keys.{key_of};
ghost use Rattle.nalfipode.specs.Reads.{FetchOut, LongestMatchOut};

// Values: how many nodes the path has, the stored number.
pub fn nalfipode_fetch(
    table: &[u32],
    width: u32,
    key: &[u32; 4],
    trail: &mut [u8],
    values: &mut [u32; 2],
) -> u32
    ensures { FetchOut table.now (key_of width key.now) trail.old result trail.new values.new }
{
    match lookup::fetch(table, crate::keyed(width, key), trail) {
        Ok(x) => {
            *values = [x.nodes as u32, x.value];
            0
        }
        Err(e) => {
            *values = [e.nodes() as u32, 0];
            e.number()
        }
    }
}

// Values: how many nodes the path has, 1 for a match and 0 for none, its width, its number.
pub fn nalfipode_longest_match(
    table: &[u32],
    width: u32,
    key: &[u32; 4],
    trail: &mut [u8],
    values: &mut [u32; 4],
) -> u32
    ensures { LongestMatchOut table.now (key_of width key.now) trail.old result trail.new values.new }
{
    match lookup::longest_match(table, crate::keyed(width, key), trail) {
        Ok(x) => {
            let nodes = x.nodes as u32;
            *values = match x.value {
                Some(m) => [nodes, 1, m.width, m.zone],
                None => [nodes, 0, 0, 0],
            };
            0
        }
        Err(e) => {
            *values = [0; 4];
            e.number()
        }
    }
}
