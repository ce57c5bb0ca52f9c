// Tables of texts.
ghost use Rattle.std.specs.Prelude.{◌≡◌, ◌<◌, ltb, length};
ghost use Rattle.base.specs.Choice.{pick};
ghost use Rattle.wording.specs.Rows.{row_of};

// Row n of a table of texts; nothing where there are fewer rows.
pub(crate) fn row(rows: &[&'static str], n: u8) -> &'static [u8]
    ensures { result.now ≡ row_of rows.now n }
{
    match rows.get(usize::from(n)) {
        Some(text) => text.as_bytes(),
        None => b"",
    }
}

// Row n of a table of texts; the first row where there are fewer rows.
pub(crate) fn row_or_first(rows: &[&'static str], n: u8) -> &'static [u8]
    requires { 0 < length rows.now }
    ensures { result.now ≡ row_of rows.now (pick (ltb n (length rows.now)) n 0) }
{
    rows.get(usize::from(n)).unwrap_or(&rows[0]).as_bytes()
}
