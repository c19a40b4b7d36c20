// Why a hex number of a line could not be read.
// C's interface: one symbol a name. What symbols share is in `capi` and below it.
ghost use Rattle.std.specs.Prelude.{◌≡◌};
ghost use Rattle.reasons.specs.Reasons.{piece_answer};
ghost use Rattle.capi.specs.Hexes.{hex_by, key_numbered, key_told};

use capi::hexes::HexAnswer;

#[unsafe(no_mangle)]
pub extern "C" fn ck_hex_key(line: &[u8], key: u8) -> HexAnswer
    ensures { result ≡ hex_by (key_told line.now (key_numbered key)) }
{
    capi::hexes::ck_hex_key(line, key)
}

#[unsafe(no_mangle)]
pub extern "C" fn ck_hex_piece(line: &[u8], piece: usize) -> HexAnswer
    ensures { result ≡ hex_by (piece_answer line.now piece) }
{
    capi::hexes::ck_hex_piece(line, piece)
}
