//! Tables of cases as one text, a case on a line, since the proof of a table of many texts is costly and that of one text is not.

/// What a line says of a case, and what is expected of it, which comes after an arrow.
pub fn case_of(line: &str) -> (&str, &str) {
    line.split_once(" => ").unwrap_or((line, ""))
}
