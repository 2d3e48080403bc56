ghost use Rattle.std.specs.Prelude.{◌≡◌, ◌+◌, length, IfErr, IfOk, MatchOption};
ghost use Rattle.path_recover.specs.Walks.{BeginsShut, BeginsWhole, IsCut};

use byte_fields::{Fields, Short};

// The body of the record that stands next, None where a gate stands there that isn't open.
pub(crate) fn next_body<'a>(fields: &mut Fields<'a>) -> Result<Option<&'a [u8]>, Short>
    ensures record { IfOk result (λ found. MatchOption found (BeginsShut fields.old.left)
        (λ body. BeginsWhole fields.old.left body.now fields.new.left)) }
    ensures passed { IfOk result (λ found. MatchOption found (fields.new.at ≡ fields.old.at + 1)
        (λ body. fields.new.at ≡ fields.old.at + 5 + length body.now)) }
    ensures cut { IfErr result (λ _. IsCut fields.old.left) }
{
    if fields.u8()? != 1 {
        return Ok(None);
    }
    let count = fields.u32()?;
    let body = fields.bytes(count as usize)?;
    if fields.left() == 0 {
        return Err(Short { at: fields.at() });
    }
    Ok(Some(body))
}
