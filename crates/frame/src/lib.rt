// A frame's row: whether its kind is known and the numbers of a contact are in their ranges. The plan stands on it.
#![tactic(auto)]

ghost use Rattle.std.specs.Prelude.{◌≡◌, ◌<◌, pos};
ghost use Rattle.model.specs.Numbers.{between_z};
ghost use Rattle.model.specs.Table.{numbers_of};
ghost use Rattle.model.specs.Frame.{good_contact, good_row};
ghost use Rattle.panel.specs.Seen.{row_of, axes_of};
ghost use Rattle.frame.specs.Fit31.{Fit31};

use panel::{LEAST_POSITION, LEAST_PRESSURE, LEAST_SIZE, Row, Setup};

// Whether v is least to top. The bits of a negative number are above every top, so no sign is tested.
fn in_range(v: i32, least: u32, top: u32) -> bool
    requires { top < 2147483648 }
    ensures { result ≡ between_z (pos least) (pos top) v }
{
    let bits = records::bits_of(v);
    least <= bits && bits <= top
}

// By `&` and not `&&`: every test is made, and none is a branch of its own.
fn numbers_in(setup: Setup, r: Row) -> bool
    requires { Fit31 setup }
    ensures { result ≡ good_contact (axes_of setup) (numbers_of (row_of r)) }
{
    in_range(r.x, LEAST_POSITION, setup.x)
        & (in_range(r.y, LEAST_POSITION, setup.y)
            & (in_range(r.pressure, LEAST_PRESSURE, setup.pressure)
                & (in_range(r.major, LEAST_SIZE, setup.major)
                    & in_range(r.minor, LEAST_SIZE, setup.minor))))
}

// One slot's row. The other numbers count only where there is a contact.
pub fn row_ok(setup: Setup, r: Row) -> bool
    requires { Fit31 setup }
    ensures { result ≡ good_row (axes_of setup) (row_of r) }
{
    common::same(r.first, 0) || in_range(r.first, 1, 2) && numbers_in(setup, r)
}
