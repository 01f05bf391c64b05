ghost use Rattle.std.specs.Prelude.{◌≡◌, true, ◌≤◌, ◌<◌, length};
ghost use Rattle.digits.specs.Limits.{card};
ghost use Rattle.sheet.specs.Spelling.Field.{is_whole, whole_of};
ghost use Rattle.order.specs.Order.{Prints, refusal, served, order_length, order_buffer, OrderPromised};

use digits::{Card, Machine, Missed};

// Writes N,number for a number of one figure.
fn refuse(number: u8, out: &mut [u8]) -> usize
    requires { (number < 10) × (4 ≤ length out.old) }
    ensures { Prints (refusal number) out.old result out.new }
{
    out[..4].copy_from_slice(&[b'N', b',', b'0' + number, b'\n']);
    4
}

// Writes the sheet of an order, or the refusal of its limit.
fn serve(k: &[u8], l: &[u8], slots: u32, out: &mut [u8]) -> usize
    requires { (is_whole 16 card.figures k.now ≡ true) × ((is_whole 16 card.figures l.now ≡ true) × (card.sheet ≤ length out.old)) }
    ensures { Prints (served (whole_of 16 k.now) (whole_of 16 l.now) slots) out.old result out.new }
{
    let k = crate::scalar::scalar_of(k);
    let l = crate::scalar::scalar_of(l);
    match chooser::cheapest::<Card>(k.scalar(), l.scalar(), slots, out) {
        Ok(sheet) => sheet.length,
        Err(Missed::BadLimit) => refuse(4, out),
        // Each scalar is sized, and the buffer has room.
        Err(_) => 0,
    }
}

// Reads an order and writes what the order program prints, in a buffer of 16,384 bytes; nothing in a shorter one.
pub fn order(line: &[u8], out: &mut [u8]) -> usize
    ensures answer { result ≡ order_length card line.now (length out.old) }
    ensures buffer { out.new ≡ order_buffer card line.now out.old }
    ensures promised { OrderPromised line.now (length out.old) result out.new }
{
    if out.len() < Card::LIMITS.sheet {
        return 0;
    }
    let fields = crate::line::line_of(line);
    match crate::line::slots_of(Card::LIMITS, fields) {
        Some(slots) => serve(
            sheet::fields::field(fields, 0),
            sheet::fields::field(fields, 1),
            slots,
            out,
        ),
        None => refuse(6, out),
    }
}
