// Block 0: the magic, the format version, and the numbers of variables and log slots.
ghost use Rattle.std.specs.Prelude.{◌≡◌, ◌≤◌, ◌↔◌, ℕ, length, IfOk, IfErr, IfSome, IfNone, IsTrue};
ghost use Rattle.tmem_record.specs.Layout.{IsLayout};
ghost use Rattle.tmem_state.specs.Versions.{version_number};
ghost use Rattle.tmem_state.specs.declared.version.Version.{Version as VersionOf};
ghost use Rattle.tmem_journal.specs.BlockSpelling.{block_body};
ghost use Rattle.tmem_journal.specs.Parts.{IsBlockFault};

use tmem_fault::Fault;
use tmem_record::bytes::{put, short_at};
use tmem_record::{BLOCK_BYTES, Layout};
use tmem_state::Version;

// How long block 0 is without its gate.
const BLOCK_BODY_BYTES: usize = BLOCK_BYTES - 1;

/// Spells what stands behind the gate of block 0.
pub(crate) fn spell_block(version: Version, vars: u16, slots: u16) -> [u8; BLOCK_BODY_BYTES]
    ensures { result ≡ block_body version vars slots }
{
    let mut bytes = [0; BLOCK_BODY_BYTES];
    let mut at = put(&mut bytes, 0, b"TMEM");
    at = put(&mut bytes, at, &[version.number()]);
    at = put(&mut bytes, at, &vars.to_le_bytes());
    put(&mut bytes, at, &slots.to_le_bytes());
    bytes
}

/// The version and the layout whose block 0 these bytes are, without its gate.
fn block_in(bytes: &[u8]) -> Option<(Version, Layout)>
    requires { length bytes.now ≡ 511 }
    ensures found { IfSome result (λ it. bytes.now ≡ block_body it.0 it.1.vars it.1.slots) }
    ensures none { IfNone result ((version : VersionOf) (vars slots : ℕ) → IsLayout vars slots → bytes.now ≡ block_body version vars slots → ⊥) }
{
    let Some(version) = Version::of_block(bytes[4]) else {
        return None;
    };
    let (vars, slots) = (short_at(bytes, 5), short_at(bytes, 7));
    match Layout::new(vars, slots) {
        Ok(layout) if bytes == spell_block(version, vars, slots).as_slice() => {
            Some((version, layout))
        }
        _ => None,
    }
}

/// Which version's the bytes behind the gate of block 0 are, for this layout. Refused by `NotFormatted` where the magic is
/// missing; else by `Damaged` where the version is none that there is, a number is out of its limits or a byte behind them
/// is not 0; and by `Geometry` where the numbers are others.
pub(crate) fn read_block(bytes: &[u8], layout: Layout) -> Result<Version, Fault>
    requires { length bytes.now ≡ 511 }
    ensures found { IfOk result (λ version. bytes.now ≡ block_body version layout.vars layout.slots) }
    ensures refused { IfErr result (IsBlockFault layout.vars layout.slots bytes.now) }
{
    if !bytes.starts_with(b"TMEM") {
        return Err(Fault::NotFormatted);
    }
    let Some((version, found)) = block_in(bytes) else {
        return Err(Fault::Damaged);
    };
    if found.vars != layout.vars || found.slots != layout.slots {
        return Err(Fault::Geometry);
    }
    Ok(version)
}

/// Whether an image of one version may stand behind a block 0 of another: no store is formatted by a later version than its
/// images are of.
pub(crate) fn may_follow(block: Version, image: Version) -> bool
    ensures { IsTrue result ↔ (version_number block ≤ version_number image) }
{
    block.number() <= image.number()
}
