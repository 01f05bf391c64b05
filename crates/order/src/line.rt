ghost use Rattle.std.specs.Prelude.{◌≡◌};
ghost use Rattle.sheet.specs.Spelling.Field.{decimal_of};
ghost use Rattle.sheet.specs.Spelling.{comma, cut};
ghost use Rattle.order.specs.Order.{line_of, read_fields, slots_of};

use digits::Limits;

const LINE_FEED: u8 = b'\n';

// The one line of an order, without its line feed; empty where there is none.
pub fn line_of(order: &[u8]) -> &[u8]
    ensures { result.now ≡ line_of order.now }
{
    let end = sheet::fields::find(order, LINE_FEED);
    if end + 1 == order.len() {
        return &order[..end];
    }
    &order[..0]
}

// The slots of a line that is spelled k,l,slots, with scalars of no more figures than the limits allow.
pub fn slots_of(limits: Limits, line: &[u8]) -> Option<u32>
    ensures { result ≡ decimal_of (slots_of (read_fields limits (cut comma line.now))) }
{
    if sheet::fields::is_scalar_at(limits, line, 0)
        && sheet::fields::is_scalar_at(limits, line, 1)
        && sheet::fields::count(line) == 3
    {
        return sheet::fields::decimal_at(line, 2);
    }
    None
}
