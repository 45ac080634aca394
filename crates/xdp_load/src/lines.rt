//! The line of settings at which a key, or a row of a list, is found.
ghost use Rattle.std.specs.Prelude.{◌≡◌, ◌<◌, IfOk, IfSome, length, map, option_map, position, slice_get};
ghost use Rattle.std.specs.Str.Lines.{lines};
ghost use Rattle.xdp_load.specs.Lines.{is_table, pair_line, part_line, row_line, row_lines, top_line};

use crate::line_words::{is_header, is_pair, is_row, is_table};
use std::alloc::{AllocError, Global};

/// The lines of a text.
pub fn lines_of(alloc: Global, text: &str) -> Result<Vec<&str>, AllocError>
    ensures { IfOk result (λ v. map (λ l. l.now) v.items ≡ lines text.now) }
{
    text.lines().collect(alloc)
}

/// The first line with a key, before any header.
fn pair_line(key: &str, lines: &[&str]) -> Option<usize>
    ensures value { result ≡ pair_line key.now (map (λ l. l.now) lines.now) }
    ensures within { IfSome result (λ i. i < length lines.now) }
{
    lines
        .iter()
        .take_while(|line| !is_header(**line))
        .position(|line| is_pair(key, *line))
}

/// The first header with a name.
fn table_line(name: &str, lines: &[&str]) -> Option<usize>
    ensures value { result ≡ position (is_table name.now) (map (λ l. l.now) lines.now) }
    ensures within { IfSome result (λ i. i < length lines.now) }
{
    lines.iter().position(|line| is_table(name, *line))
}

/// The line of a key of the document.
pub fn top_line(key: &str, lines: &[&str]) -> Option<usize>
    ensures value { result ≡ top_line key.now (map (λ l. l.now) lines.now) }
    ensures within { IfSome result (λ i. i < length lines.now) }
{
    pair_line(key, lines).or(table_line(key, lines))
}

/// The header of a row.
fn header_line(name: &str, number: usize, lines: &[&str]) -> Option<usize>
    ensures value { result ≡ slice_get (row_lines name.now 0 (map (λ l. l.now) lines.now)) number }
    ensures within { IfSome result (λ i. i < length lines.now) }
{
    let mut before = 0;
    for i in 0..lines.len() {
        if is_row(name, lines[i]) {
            if before == number {
                return Some(i);
            }
            before += 1;
        }
    }
    None
}

/// The line of a key of the row with its header at a line, or else the header.
fn part_line(part: Option<&str>, lines: &[&str], header: usize) -> usize
    requires { header < length lines.now }
    ensures value { result ≡ part_line (option_map (λ p. p.now) part.entry) (map (λ l. l.now) lines.now) header }
    ensures within { result < length lines.now }
{
    let Some(key) = part else {
        return header;
    };
    match pair_line(key, &lines[header + 1..]) {
        Some(below) => header + 1 + below,
        None => header,
    }
}

/// The line of a row, or of a key of it.
pub fn row_line(name: &str, part: Option<&str>, number: usize, lines: &[&str]) -> Option<usize>
    ensures value { result ≡ row_line name.now (option_map (λ p. p.now) part.entry) number (map (λ l. l.now) lines.now) }
    ensures within { IfSome result (λ i. i < length lines.now) }
{
    match header_line(name, number, lines) {
        Some(header) => Some(part_line(part, lines, header)),
        None => pair_line(name, lines),
    }
}
