// Ground cells: a position becomes the prefix of width 64 that names its cell. The column, the row
// and the spread of a byte stand each behind one name, since each has a change ahead of it.

#![tactic(auto)]

ghost use Rattle.std.specs.Prelude.{◌≤◌, ◌<◌, ◌≡◌, true};
ghost use Rattle.bits.specs.Numbers.{bits_of, value};
ghost use Rattle.ground.specs.Cells.{within, half_turn, quarter_turn, interleave, prefix_of, Cell};
ghost use Rattle.ground.specs.Cells.{scaled as scaled_of, column as column_of, row as row_of};

use prefix::Prefix;
use refusals::Refusal;

// A half turn and a quarter turn in ten-millionths of a degree.
const HALF_TURN: u32 = 1_800_000_000;

const QUARTER_TURN: u32 = 900_000_000;

// How many columns there are, and as many rows.
const LINES: u64 = 4_294_967_296;

const LAST_LINE: u64 = 4_294_967_295;

// The cell of a position in ten-millionths of a degree, or BadPosition (3) outside the range.
pub fn cell(longitude: i32, latitude: i32) -> Result<Prefix, Refusal>
    ensures { Cell longitude latitude result }
{
    if !inside(longitude, HALF_TURN) || !inside(latitude, QUARTER_TURN) {
        return Err(Refusal::BadPosition);
    }
    Ok(interleaved(column(longitude), row(latitude)))
}

// Whether z is from -half to half.
fn inside(z: i32, half: u32) -> bool
    ensures { result ≡ within half z }
{
    let most = i64::from(half);
    (-most..=most).contains(&i64::from(z))
}

// The column of a longitude.
fn column(lon: i32) -> u32
    requires { within half_turn lon ≡ true }
    ensures { result ≡ column_of lon }
{
    scaled(lon, HALF_TURN).min(LAST_LINE) as u32
}

// The row of a latitude. Stays beside `column`: the rule at the last column has a change ahead of it that rows have not.
fn row(lat: i32) -> u32
    requires { within quarter_turn lat ≡ true }
    ensures { result ≡ row_of lat }
{
    scaled(lat, QUARTER_TURN).min(LAST_LINE) as u32
}

// The line that z lies on, of LINES lines from -half to half: LINES itself at half.
fn scaled(z: i32, half: u32) -> u64
    requires half_nonzero { (0 < half) × (half ≤ half_turn) }
    requires z_value { within half z ≡ true }
    ensures { result ≡ scaled_of half z }
{
    let wide = i64::from(z);
    let most = i64::from(half);
    let sum = wide + most;
    let shifted = sum as u64;
    let product = shifted * LINES;
    let whole = 2 * most as u64;
    product / whole
}

// The prefix of width 64 whose bits are those of c and r in turn, c's first.
fn interleaved(c: u32, r: u32) -> Prefix
    ensures { result ≡ prefix_of (interleave (bits_of 32 c) (bits_of 32 r)) }
{
    let high = mixed(c / 65536, r / 65536);
    let low = mixed(c % 65536, r % 65536);
    Prefix {
        width: 64,
        w0: high,
        w1: low,
        w2: 0,
        w3: 0,
    }
}

// The 32 bits of two 16-bit numbers in turn, c's first.
fn mixed(c: u32, r: u32) -> u32
    requires { (c < 65536) × (r < 65536) }
    ensures { result ≡ value (interleave (bits_of 16 c) (bits_of 16 r)) }
{
    let first = spread(c);
    let second = spread(r);
    first * 2 + second
}

// The 16 bits of x, each after a 0.
// Stays beside `spread_byte`: one function for both sizes would take the half's function and width, and be longer.
fn spread(x: u32) -> u32
    requires { x < 65536 }
    ensures { result ≡ value (interleave (bits_of 16 0) (bits_of 16 x)) }
{
    let high = spread_byte(x / 256);
    let low = spread_byte(x % 256);
    high * 65536 + low
}

// The 8 bits of x, each after a 0.
fn spread_byte(x: u32) -> u32
    requires { x < 256 }
    ensures { result ≡ value (interleave (bits_of 8 0) (bits_of 8 x)) }
{
    let high = spread_nibble(x / 16);
    let low = spread_nibble(x % 16);
    high * 256 + low
}

// The 4 lowest bits of x, each after a 0.
fn spread_nibble(x: u32) -> u32
    ensures { result ≡ value (interleave (bits_of 4 0) (bits_of 4 x)) }
{
    x / 8 % 2 * 64 + x / 4 % 2 * 16 + x / 2 % 2 * 4 + x % 2
}
