// The data section: entries one after the other, each a zone number in shortest form. The check, the
// count and the marks of `used` all read it by `read`, so that what an entry is stands in one place.
ghost use Rattle.std.specs.Prelude.{◌≤◌, ◌<◌, ◌≡◌, length};
ghost use Rattle.image_verify.specs.Verifying.{read_on, entries_on};
ghost use Rattle.image_verify.specs.Describing.{entry_count};
ghost use Rattle.image_verify.specs.Starts.{next_of};

use crate::Entry;

// The bytes of an image, up to where its data section ends.
#[derive(Clone, Copy)]
pub(crate) struct Section<'a> {
    pub bytes: &'a [u8],
    pub end: usize,
    ghost inside: { end ≤ length bytes.now },
}

// Stays: `entries`, `count` and the marks of `used` each walk by a loop of their own. Each carries something else: the
// least number that may come, a count, the marks. A cursor's own contract would have to say in one what each loop says.
impl Section<'_> {
    // From `start` on there are entries, in shortest form, each number above the last.
    pub(crate) fn entries(&self, start: usize) -> bool
        requires { start ≤ self.now.end }
        ensures { result ≡ entries_on (length self.now.bytes.now) self.now.bytes.now start self.now.end 0 }
    {
        let mut at = start;
        let mut low: u64 = 0;
        while let Some(x) = self.read(at) {
            let number = x.zone as u64;
            if number < low {
                return false;
            }
            low = number + 1;
            at = x.next;
        }
        at == self.end
    }

    // The data entries from `start` on, up to the end or to bytes that are none.
    pub(crate) fn count(&self, start: usize) -> usize
        requires { start ≤ self.now.end }
        ensures { result ≡ entry_count (length self.now.bytes.now) self.now.bytes.now start self.now.end }
    {
        let mut at = start;
        let mut k: usize = 0;
        while let Some(x) = self.read(at) {
            k += 1;
            at = x.next;
        }
        k
    }

    // Where the entry after the one at `at` starts, or the end where there is none.
    // Stays the end and no Option where nothing comes: that is where the loop that asks stops.
    pub(crate) fn after(&self, at: usize) -> usize
        requires { at < self.now.end }
        ensures { result ≡ next_of self.now.end (read_on self.now.bytes.now at self.now.end) }
    {
        self.read(at).map_or(self.end, |x| x.next)
    }

    // The data entry at a byte.
    #[tactic(auto, unfolding(crate::specs::Verifying::read_on))]
    fn read(&self, at: usize) -> Option<Entry>
        ensures { result ≡ read_on self.now.bytes.now at self.now.end }
    {
        if self.end <= at {
            return None;
        }
        let size = match self.bytes[at] {
            control @ 0xC0..=0xC4 => (control - 0xC0) as usize,
            _ => return None,
        };
        if self.end - at <= size {
            return None;
        }
        if size != 0 && self.bytes[at + 1] == 0 {
            return None;
        }
        Some(Entry {
            next: at + 1 + size,
            zone: metadata::number_at(self.bytes, at + 1, size) as u32,
        })
    }
}
