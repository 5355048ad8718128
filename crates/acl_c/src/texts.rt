//! What each answer says, in words.

ghost use Rattle.std.specs.Prelude.{◌≡◌};
ghost use Rattle.acl_c.specs.Texts.{error_text, call_text, fields_text, rule_text, image_text};

/// `struct aclc_text`: a text that stays, and how many bytes it has. The last of them is zero.
#[repr(C)]
pub struct Text {
    pub bytes: &'static [u8],
}

/// The text of an answer of any call.
fn call_text(code: u32) -> &'static [u8]
    ensures { result.now ≡ call_text code }
{
    match code {
        0 => b"done\0",
        1 => b"there is no memory for it\0",
        2 => b"a handle that the call is on is empty\0",
        3 => b"a handle that the call fills isn't empty\0",
        4 => b"the lengths of two arguments don't fit together\0",
        5 => b"a context may not be made for so many rules\0",
        6 => b"the budget is more words than a table may have\0",
        7 => b"the number of categories isn't 1, 4, 8, 12 or 16\0",
        8 => b"the number is none of a walk\0",
        9 => b"there are more keys than a call may have\0",
        10 => b"there is room by lanes for fewer keys\0",
        11 => b"the context has no table\0",
        12 => b"with these rules the context would hold more than it may\0",
        13 => b"the table needs more words than the budget\0",
        14 => b"a pointer is null\0",
        15 => b"no image has the tables\0",
        16 => b"the image has more bytes than there is room for\0",
        _ => b"the number is none of an answer\0",
    }
}

/// The text of a fault of field definitions.
fn fields_text(code: u32) -> &'static [u8]
    ensures { result.now ≡ fields_text code }
{
    match code {
        32 => b"there are more field definitions than a layout may have\0",
        33 => b"the number is none of a kind of field\0",
        34 => b"there is no field definition\0",
        35 => b"the field index isn't the place of the definition\0",
        36 => b"the size of the field isn't 1, 2, 4 or 8\0",
        37 => b"the first field isn't one byte long\0",
        38 => b"the input index can't follow the one before\0",
        39 => b"the fields of the group are neither 4 bytes nor one of 8\0",
        40 => b"the field doesn't lie after the one before in its group\0",
        41 => b"the offset of the field is above 65535\0",
        other => call_text(other),
    }
}

/// The text of a fault of a rule.
fn rule_text(code: u32) -> &'static [u8]
    ensures { result.now ≡ rule_text code }
{
    match code {
        48 => b"none of the low 16 bits of the category mask is set\0",
        49 => b"the priority is out of range\0",
        50 => b"a number of the value is wider than the field\0",
        51 => b"the mask has more bits than the field\0",
        52 => b"the low end of the range is above the high end\0",
        other => fields_text(other),
    }
}

/// The text of a fault of an image.
fn image_text(code: u32) -> &'static [u8]
    ensures { result.now ≡ image_text code }
{
    match code {
        64 => b"the image doesn't begin with ACLT\0",
        65 => b"the version of the image is neither 1 nor 2\0",
        66 => b"a table of the image is of another family\0",
        67 => b"the image ends within a field, or before it\0",
        68 => b"the image has more rules, tries or words than a table may have\0",
        69 => b"a root or a word of the image leads to no node and no row\0",
        70 => b"the word of a row of the image names no rule\0",
        71 => b"a byte stands after the last field of the image\0",
        72 => b"a trie of the image reads no byte of a key, or one that keys don't have\0",
        other => rule_text(other),
    }
}

/// The text of an answer, whatever its number is.
pub(crate) fn error_text(code: u32) -> &'static [u8]
    ensures { result.now ≡ error_text code }
{
    image_text(code)
}
