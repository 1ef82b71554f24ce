use crate::{
    Section, bound_named, fields_of, is_comment, is_data, is_text, next_line, section_named,
};
use std::test::Fail;

/// Lines with the fields that a section line or a data line of them has, at most two.
const LINES: [(&[u8], &[u8], &[u8]); 6] = [
    (b"", b"", b""),
    (b" \t\r", b"", b""),
    (b"NAME  one more", b"NAME", b"one"),
    (b"\tx\r c 1", b"x", b"c"),
    (b" a b c d e f g", b"a", b"b"),
    (b"ENDATA\r", b"ENDATA", b""),
];

/// The first line of the table that has other fields.
fn first_wrong() -> Option<usize> {
    for place in 0..LINES.len() {
        let (line, first, second) = LINES[place];
        if !is_text(line) || line.len() > 100 {
            return Some(place);
        }
        let fields = fields_of(line);
        if fields.first() != first || fields.second() != second {
            return Some(place);
        }
    }
    None
}

#[test]
fn fields_of_lines(rt: HostRuntime) -> Result<(), Fail> {
    assert_eq!(rt; first_wrong(), None);
    assert!(rt; is_comment(b"* \xff") && !is_comment(b" *") && is_data(b"\tx") && !is_data(b"x"));
    assert!(rt; !is_text(b"x\x0b") && !is_text(b"\x7f"));
    assert!(rt; section_named(b"RHS") == Some(Section::Rhs) && section_named(b"rhs").is_none());
    assert!(rt; bound_named(b"BV").is_some() && bound_named(b"bv").is_none());
    match next_line(b"a\n\nb") {
        Some((line, rest)) => assert!(rt; line == b"a".as_slice() && rest == b"\nb".as_slice()),
        None => assert!(rt; false),
    }
    Ok(())
}
