//! Whether a list is whole.
ghost use Rattle.std.specs.Prelude.{◌≡◌};
ghost use Rattle.vault_live.specs.Following.{has_last as has_last_line, is_whole as is_whole_text};

/// Whether a text ends with a line, given with the end of the line before it and by itself.
fn has_last(text: &[u8], behind: &[u8], alone: &[u8]) -> bool
    ensures { result ≡ has_last_line text.now behind.now alone.now }
{
    text.ends_with(behind) || text == alone
}

/// Whether a list is whole: its last line is `# end`, whether LF, CR LF or nothing ends that line.
pub fn is_whole(text: &[u8]) -> bool
    ensures { result ≡ is_whole_text text.now }
{
    has_last(text, b"\n# end\n", b"# end\n")
        || has_last(text, b"\n# end\r\n", b"# end\r\n")
        || has_last(text, b"\n# end", b"# end")
}
