// The data section of an image: zone numbers in shortest form, ascending. Longer numbers are larger, so the
// entries stand in runs of one length, and a number's entry is found by halving its run.

#![tactic(auto)]

ghost use Rattle.std.specs.Prelude.{◌+◌, ◌*◌, ◌^◌, ◌≤◌, ◌<◌, ◌≡◌, length};
ghost use Rattle.image.specs.Bytes.{short};
ghost use Rattle.image_data.specs.Runs.{length_of, none, start_of, one_more, Placed, Offset};

// How many entries have a number of 0, 1, 2, 3 and 4 bytes.
#[derive(Clone, Copy, Debug, PartialEq, Eq)]
pub struct Runs {
    pub counts: [u32; 5],
}

impl Runs {
    // No entries.
    pub fn new() -> Runs
        ensures { result ≡ none }
    {
        Runs { counts: [0; 5] }
    }

    // The runs with one more number, of s bytes.
    pub fn with(self, s: usize) -> Runs
        requires { (s ≤ 4) × (length_of self + 1 < 2 ^ 32) }
        ensures { result ≡ one_more self s }
    {
        let mut more = self;
        more.counts[s] += 1;
        more
    }

    // The bytes of all entries.
    #[tactic(auto, unfolding(crate::specs::Runs::length_of))]
    pub fn length(self) -> usize
        ensures { result ≡ length_of self }
    {
        self.start(5)
    }

    // Where the run of the numbers of s bytes starts: after those of fewer, one byte and the number each.
    fn start(self, s: usize) -> usize
        requires { s ≤ 5 }
        ensures { result ≡ start_of self s }
    {
        let mut start: usize = 0;
        for i in 0..s {
            start += (i + 1) * self.counts[i] as usize;
        }
        start
    }

    // The offset of the entry of z in the data section at `base`; some offset inside it where z has none.
    pub fn offset_of(self, bytes: &[u8], base: usize, z: u32) -> u32
        requires { (base + length_of self ≤ length bytes.now) × (length_of self < 2 ^ 24) }
        ensures { Offset bytes.now base self z result }
    {
        let s = metadata::bytes_in(z as u64);
        let start = self.start(s);
        let i = place_in(bytes, base + start, s, self.counts[s] as usize, z);
        (start + (s + 1) * i) as u32
    }
}

// The place of z among the `count` entries of s bytes from `at` on, found by halving; some place where z is
// not there.
fn place_in(bytes: &[u8], at: usize, s: usize, count: usize, z: u32) -> usize
    requires { (s ≤ 4) × (at + (s + 1) * count ≤ length bytes.now) }
    ensures { Placed bytes.now at s count z result }
{
    let mut low: usize = 0;
    let mut high = count;
    // Stays: the entries are bytes and not the items of a slice, so no library search goes over them.
    while low < high {
        let middle = low + (high - low) / 2;
        let number = metadata::number_at(bytes, at + (s + 1) * middle + 1, s);
        if number < z as u64 {
            low = middle + 1;
        } else {
            high = middle;
        }
    }
    low
}
