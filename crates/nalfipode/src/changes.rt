// Fresh, store and remove.
ghost use Rattle.nalfipode.specs.Keys.{key_of};
ghost use Rattle.nalfipode.specs.Changes.{FreshOut, StoreOut, RemoveOut};

// It has no values.
pub fn nalfipode_fresh(table: &mut [u32]) -> u32
    ensures { FreshOut table.old result table.new }
{
    match edits::fresh(table) {
        Ok(()) => 0,
        Err(e) => e.number(),
    }
}

// Values: how many nodes the path has, 1 where a number was replaced and 0 where not, the old
// number.
pub fn nalfipode_store(
    table: &mut [u32],
    width: u32,
    key: &[u32; 4],
    zone: u32,
    trail: &mut [u8],
    values: &mut [u32; 3],
) -> u32
    ensures { StoreOut table.old (key_of width key.now) zone trail.old result table.new trail.new values.new }
{
    match edits::store(table, crate::keyed(width, key), zone, trail) {
        Ok(x) => {
            let nodes = x.nodes as u32;
            *values = match x.value {
                Some(old) => [nodes, 1, old],
                None => [nodes, 0, 0],
            };
            0
        }
        Err(e) => {
            *values = [e.nodes() as u32, 0, 0];
            e.number()
        }
    }
}

// Values: how many nodes the path has, the number taken out.
pub fn nalfipode_remove(
    table: &mut [u32],
    width: u32,
    key: &[u32; 4],
    trail: &mut [u8],
    values: &mut [u32; 2],
) -> u32
    ensures { RemoveOut table.old (key_of width key.now) trail.old result table.new trail.new values.new }
{
    match edits::remove(table, crate::keyed(width, key), trail) {
        Ok(x) => {
            *values = [x.nodes as u32, x.value];
            0
        }
        Err(e) => {
            *values = [e.nodes() as u32, 0];
            e.number()
        }
    }
}
