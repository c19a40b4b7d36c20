// A field of a row: its name, and its value or a dash for none.
//
// These are helpers of the replaying programs, below their outer surface. A page keeps its place inside its buffer, so no call asks for it;
// each promises that the page is over the same buffer still, `put_list` where its closure keeps it there. What they print is compared with the
// oracle in the gate.
ghost use Rattle.oracle_line_rows.specs.Lent.{OverSame, Keeps};

use print::page::Page;
use refusal::Refusal;

// A name and a number; yes is 1, and no is 0.
pub fn put_count<T: Into<u64>>(page: &mut Page, name: &[u8], n: T)
    ensures { OverSame page.old page.new }
{
    page.put(name);
    page.put_decimal(n.into());
}

// A name and bytes.
pub fn put_bytes(page: &mut Page, name: &[u8], s: &[u8])
    ensures { OverSame page.old page.new }
{
    page.put(name);
    page.put_hex(s);
}

// A name and a dash.
pub fn put_none(page: &mut Page, name: &[u8])
    ensures { OverSame page.old page.new }
{
    page.put(name);
    page.put(b"-");
}

// A name and the number that refuses.
pub fn put_refused(page: &mut Page, name: &[u8], refusal: Refusal)
    ensures { OverSame page.old page.new }
{
    put_count(page, name, refusal.number());
}

// A name and a number, or a dash for none.
pub fn put_maybe<T: Into<u64>>(page: &mut Page, name: &[u8], v: Option<T>)
    ensures { OverSame page.old page.new }
{
    match v {
        Some(n) => put_count(page, name, n),
        None => put_none(page, name),
    }
}

// The items with a comma between them, each as `put` says it; a dash for none.
pub fn put_list<T: Copy, F: Fn(&mut Page, T)>(page: &mut Page, items: &[T], put: F)
    requires { F.IsAlwaysCallable put }
    ensures { Keeps (F.post put) → OverSame page.old page.new }
{
    let Some((first, rest)) = items.split_first() else {
        page.put(b"-");
        return;
    };
    put(page, *first);
    for item in rest {
        page.put(b",");
        put(page, *item);
    }
}
