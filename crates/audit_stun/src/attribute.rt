//! Splits the attributes of a message.

ghost use Rattle.std.specs.Prelude.{◌≡◌, ◌+◌, ◌∷◌, [], length, ◌↔◌, IsTrue, IfSome, IfNone};
ghost use Rattle.audit_stun.specs.Attribute.{StartsWith, AreAttributes, size};
ghost use Rattle.audit_stun.specs.Parts.{attributes_in};
ghost use Rattle.audit_stun.specs.Seen.{seen};

/// A type, and the value under it without its padding (RFC 8489, section 14).
#[derive(Clone, Copy, Debug)]
pub(crate) struct Attribute<'a> {
    pub(crate) kind: u16,
    pub(crate) value: &'a [u8],
}

/// The first attribute of these bytes, and the bytes after it. None if they do not begin with a
/// whole one.
pub(crate) fn split_attribute(bytes: &[u8]) -> Option<(Attribute<'_>, &[u8])>
    ensures first { IfSome result (λ split. StartsWith bytes.now (seen split.0) split.1.now) }
    ensures rest { IfSome result
        (λ split. attributes_in bytes.now ≡ seen split.0 ∷ attributes_in split.1.now) }
    ensures size { IfSome result
        (λ split. size (seen split.0) + length split.1.now ≡ length bytes.now) }
    ensures none { IfNone result (attributes_in bytes.now ≡ []) }
{
    let [type_high, type_low, length_high, length_low, rest @ ..] = bytes else {
        return None;
    };
    let length = u16::from_be_bytes([*length_high, *length_low]) as usize;
    let padded = (length + 3) / 4 * 4;
    if rest.len() < padded {
        return None;
    }
    let (value, after) = rest.split_at(padded);
    let kind = u16::from_be_bytes([*type_high, *type_low]);
    Some((
        Attribute {
            kind,
            value: &value[..length],
        },
        after,
    ))
}

/// Whether the bytes are whole attributes and nothing else.
pub(crate) fn are_attributes(bytes: &[u8]) -> bool
    ensures { IsTrue result ↔ AreAttributes bytes.now (attributes_in bytes.now) }
{
    let mut rest = bytes;
    while let Some((_, after)) = split_attribute(rest) {
        rest = after;
    }
    rest.is_empty()
}
