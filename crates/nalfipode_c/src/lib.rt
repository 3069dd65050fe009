// What C links: each call of `nalfipode` as an exported C function, with the same contract. A library is built
// for Rattle crates or for C, not for both, so the exports stand here, and each only passes its arguments on.

#![tactic(auto)]

ghost use Rattle.nalfipode.specs.Cells.{CellOut};
ghost use Rattle.nalfipode.specs.Keys.{key_of};
ghost use Rattle.nalfipode.specs.Changes.{FreshOut, StoreOut, RemoveOut};
ghost use Rattle.nalfipode.specs.Reads.{FetchOut, LongestMatchOut};
ghost use Rattle.nalfipode.specs.Slices.{resume_from, SliceOut};
ghost use Rattle.nalfipode.specs.Checks.{AuditOut};
ghost use Rattle.nalfipode.specs.Images.{WriteOut, VerifyOut, DescribeOut, LookOut};

use nalfipode::{cells, changes, checks, images, reads, slices};

// ---- a position's cell

// Values: the four key words and the width.
#[unsafe(no_mangle)]
pub extern "C" fn nalfipode_cell(longitude: i32, latitude: i32, values: &mut [u32; 5]) -> u32
    ensures { CellOut longitude latitude result values.new }
{
    cells::nalfipode_cell(longitude, latitude, values)
}

// ---- fresh, store and remove

// It has no values.
#[unsafe(no_mangle)]
pub extern "C" fn nalfipode_fresh(table: &mut [u32]) -> u32
    ensures { FreshOut table.old result table.new }
{
    changes::nalfipode_fresh(table)
}

// Values: how many nodes the path has, 1 where a number was replaced and 0 where not, the old
// number.
#[unsafe(no_mangle)]
pub extern "C" fn nalfipode_store(
    table: &mut [u32],
    width: u32,
    key: &[u32; 4],
    zone: u32,
    trail: &mut [u8],
    values: &mut [u32; 3],
) -> u32
    ensures { StoreOut table.old (key_of width key.now) zone trail.old result table.new trail.new values.new }
{
    changes::nalfipode_store(table, width, key, zone, trail, values)
}

// Values: how many nodes the path has, the number taken out.
#[unsafe(no_mangle)]
pub extern "C" fn nalfipode_remove(
    table: &mut [u32],
    width: u32,
    key: &[u32; 4],
    trail: &mut [u8],
    values: &mut [u32; 2],
) -> u32
    ensures { RemoveOut table.old (key_of width key.now) trail.old result table.new trail.new values.new }
{
    changes::nalfipode_remove(table, width, key, trail, values)
}

// ---- fetch and longest match

// Values: how many nodes the path has, the stored number.
#[unsafe(no_mangle)]
pub extern "C" fn nalfipode_fetch(
    table: &[u32],
    width: u32,
    key: &[u32; 4],
    trail: &mut [u8],
    values: &mut [u32; 2],
) -> u32
    ensures { FetchOut table.now (key_of width key.now) trail.old result trail.new values.new }
{
    reads::nalfipode_fetch(table, width, key, trail, values)
}

// Values: how many nodes the path has, 1 for a match and 0 for none, its width, its number.
#[unsafe(no_mangle)]
pub extern "C" fn nalfipode_longest_match(
    table: &[u32],
    width: u32,
    key: &[u32; 4],
    trail: &mut [u8],
    values: &mut [u32; 4],
) -> u32
    ensures { LongestMatchOut table.now (key_of width key.now) trail.old result trail.new values.new }
{
    reads::nalfipode_longest_match(table, width, key, trail, values)
}

// ---- a listing's slice

// Resumes after the key where `resume` is not 0, else starts at the first prefix. Values: how many
// prefixes were given, 1 if more remain, the count.
#[unsafe(no_mangle)]
pub extern "C" fn nalfipode_slice(
    table: &[u32],
    resume: u32,
    width: u32,
    key: &[u32; 4],
    size: u32,
    out: &mut [u32],
    values: &mut [u32; 3],
) -> u32
    ensures { SliceOut table.now (resume_from resume (key_of width key.now)) size out.old result out.new values.new }
{
    slices::nalfipode_slice(table, resume, width, key, size, out, values)
}

// ---- the check of a whole table

// Value: 1 for yes.
#[unsafe(no_mangle)]
pub extern "C" fn nalfipode_audit(table: &[u32], values: &mut [u32; 1]) -> u32
    ensures { AuditOut table.now result values.new }
{
    checks::nalfipode_audit(table, values)
}

// ---- images

// Value: the length written, or where the output is too short the length needed.
#[unsafe(no_mangle)]
pub extern "C" fn nalfipode_image_write(
    table: &[u32],
    epoch: u64,
    out: &mut [u8],
    values: &mut [u64; 1],
) -> u32
    ensures { WriteOut table.now epoch out.old result out.new values.new }
{
    images::nalfipode_image_write(table, epoch, out, values)
}

// It has no values: 0 is yes.
#[unsafe(no_mangle)]
pub extern "C" fn nalfipode_image_verify(bytes: &[u8]) -> u32
    ensures { VerifyOut bytes.now result }
{
    images::nalfipode_image_verify(bytes)
}

// Values: nodes, data entries, epoch. Of use for bytes that the checker accepts.
#[unsafe(no_mangle)]
pub extern "C" fn nalfipode_image_describe(bytes: &[u8], values: &mut [u64; 3]) -> u32
    ensures { DescribeOut bytes.now result values.new }
{
    images::nalfipode_image_describe(bytes, values)
}

// Values: 1 for a zone and 0 for none, its number.
#[unsafe(no_mangle)]
pub extern "C" fn nalfipode_image_look(bytes: &[u8], key: &[u32; 4], values: &mut [u32; 2]) -> u32
    ensures { LookOut bytes.now key.now result values.new }
{
    images::nalfipode_image_look(bytes, key, values)
}
