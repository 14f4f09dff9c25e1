//! What names are made of, and that their texts read back.

ghost use Rattle.std.specs.Prelude.{◌≡◌, ℕ, List, [], ◌∷◌, IsTrue, Some};
ghost use Rattle.std.specs.List.{slice_split, list_all};
ghost use Rattle.mds_names.specs.Names.{is_name, is_name_char, nmi_of, suffix_of, stream_text, is_comma};

/// The text of an NMI or a suffix reads as itself. The text of a stream splits at its comma into
/// these two.
pub fn names_read_back()
    ensures nmi { (text : List ℕ)
        → IsTrue (is_name 10 text) → nmi_of text ≡ Some text }
    ensures suffix { (text : List ℕ)
        → IsTrue (is_name 2 text) → suffix_of text ≡ Some text }
    ensures stream { (nmi suffix : List ℕ)
        → IsTrue (is_name 10 nmi) → IsTrue (is_name 2 suffix)
        → slice_split is_comma (stream_text nmi suffix) ≡ nmi ∷ suffix ∷ [] }
{}

/// Whether each byte is a capital letter or a digit.
pub(crate) fn is_name(text: &[u8]) -> bool
    ensures { result ≡ list_all is_name_char text.now }
{
    text.iter()
        .all(|c| c.is_ascii_uppercase() || c.is_ascii_digit())
}
