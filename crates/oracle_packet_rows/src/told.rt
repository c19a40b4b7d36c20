// What a question answers, as a field of a row: its value, a dash for none, or the number that refuses it.
ghost use Rattle.oracle_line_rows.specs.Lent.{OverSame, Keeps};

use book::Uuid;
use oracle_line_rows::fields::{put_bytes, put_none, put_refused};
use print::page::Page;
use refusal::Refusal;

// A value as `put` says it. The page stays over its buffer where `put` keeps it there.
pub fn put_told<T: Drop, F: FnOnce(&mut Page, T)>(
    page: &mut Page,
    name: &[u8],
    told: Result<Option<T>, Refusal>,
    put: F,
)
    requires { F.IsAlwaysCallable put }
    ensures { Keeps (F.post put) → OverSame page.old page.new }
{
    page.put(name);
    match told {
        Ok(Some(v)) => put(page, v),
        Ok(None) => page.put(b"-"),
        Err(refusal) => put_refused(page, b"refused", refusal),
    }
}

pub fn put_number<T: Into<u64> + Drop>(
    page: &mut Page,
    name: &[u8],
    told: Result<Option<T>, Refusal>,
)
    ensures { OverSame page.old page.new }
{
    put_told(page, name, told, |page, n| page.put_decimal(n.into()));
}

// Four dwords with a dot between them.
pub fn put_uuid(page: &mut Page, name: &[u8], told: Result<Option<Uuid>, Refusal>)
    ensures { OverSame page.old page.new }
{
    put_told(
        page,
        name,
        told,
        |page, uuid|
            ensures { OverSame page.old page.new }
        {
            page.put_dword(uuid.first);
            for dword in [uuid.second, uuid.third, uuid.fourth] {
                page.put(b".");
                page.put_dword(dword);
            }
        },
    );
}

// A name out of the book, a dash for none.
pub fn put_name(page: &mut Page, before: &[u8], name: &[u8])
    ensures { OverSame page.old page.new }
{
    if name.is_empty() {
        put_none(page, before);
    } else {
        put_bytes(page, before, name);
    }
}
