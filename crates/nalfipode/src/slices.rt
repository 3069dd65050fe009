// A listing's slice.
ghost use Rattle.std.specs.Prelude.{◌≡◌};
ghost use Rattle.nalfipode.specs.Keys.{key_of};
ghost use Rattle.nalfipode.specs.Slices.{resume_from, SliceOut};

use prefix::Prefix;

// Resumes after the key where `resume` is not 0, else starts at the first prefix. Values: how many
// prefixes were given, 1 if more remain, the count.
pub fn nalfipode_slice(
    table: &[u32],
    resume: u32,
    width: u32,
    key: &[u32; 4],
    size: u32,
    out: &mut [u32],
    values: &mut [u32; 3],
) -> u32
    ensures { SliceOut table.now (resume_from resume (key_of width key.now)) size out.old result out.new values.new }
{
    match listing::slice(table, resumed(resume, width, key), size, out) {
        Ok(s) => {
            *values = [s.given, s.more as u32, s.count];
            0
        }
        Err(e) => {
            *values = [0; 3];
            e.number()
        }
    }
}

fn resumed(resume: u32, width: u32, key: &[u32; 4]) -> Option<Prefix>
    ensures { result ≡ resume_from resume (key_of width key.now) }
{
    if resume == 0 {
        return None;
    }
    Some(crate::keyed(width, key))
}
