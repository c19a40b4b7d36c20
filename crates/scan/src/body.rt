// What a payload says but for its dwords: numbers 11 to 14.
ghost use Rattle.std.specs.Prelude.{◌≡◌, ℕ, List};
ghost use Rattle.walk.specs.Kept.{LastKept};
ghost use Rattle.refusal.specs.Told.{told};
ghost use Rattle.scan.specs.Body.{optionals_of, body_of};

use entry::kind::kind_of;
use pairs::keys::{
    CONFIG, DOMAIN, DROPPED, ERROR, LEN, OFFSET, PORT, ROUTE, SEQ, SIZE, TYPE, UNPLUG,
};
use refusal::Refusal;
use walk::last::LastPairs;

#[derive(Clone, Copy)]
pub struct Optionals {
    pub offset: Option<u16>,
    pub code: Option<u8>,
    pub len: Option<u16>,
    pub port: Option<u8>,
    pub config: Option<u8>,
    pub seq: Option<u8>,
    pub unplug: Option<u8>,
}

#[derive(Clone, Copy)]
pub struct Body {
    pub kind: u8,
    pub size: u16,
    pub dropped: bool,
    pub domain: u32,
    pub route: u64,
    pub optionals: Optionals,
}

// The kind goes by the type and the header's function. The kind is read after the four checks, so that a line refused here does not pay for it. Asked for:
// what the walk keeps of each key.
#[tactic(auto, using(crate::proofs::Said::type_there, crate::proofs::Said::size_said, crate::proofs::Said::domain_said, crate::proofs::Said::route_said, crate::proofs::Said::dropped_said), unfolding(crate::specs::Body::body_of, crate::specs::Body::text_at))]
pub fn read_body(p: &[u8], function: &[u8], last: &LastPairs) -> Result<Body, Refusal>
    requires { LastKept p.now last.now }
    ensures { told result ≡ body_of p.now function.now }
{
    let name = last.part(TYPE).ok_or(Refusal::NoType)?;
    let size = last.number(SIZE).ok_or(Refusal::NoSize)?;
    let domain = last.number(DOMAIN).ok_or(Refusal::NoDomain)?;
    let route = last.number(ROUTE).ok_or(Refusal::NoRoute)?;
    Ok(Body {
        kind: kind_of(&p[name.from..name.to], function).number(),
        size: size as u16,
        dropped: last.number(DROPPED) == Some(1),
        domain: domain as u32,
        route,
        optionals: read_optionals(last),
    })
}

// No number is wider than its key's row allows.
fn read_optionals(last: &LastPairs) -> Optionals
    requires { (p : List ℕ) × LastKept p last.now }
    ensures { (p : List ℕ) → LastKept p last.now → result ≡ optionals_of p }
{
    Optionals {
        offset: last.number(OFFSET).map(|v| v as u16),
        code: last.number(ERROR).map(|v| v as u8),
        len: last.number(LEN).map(|v| v as u16),
        port: last.number(PORT).map(|v| v as u8),
        config: last.number(CONFIG).map(|v| v as u8),
        seq: last.number(SEQ).map(|v| v as u8),
        unplug: last.number(UNPLUG).map(|v| v as u8),
    }
}
