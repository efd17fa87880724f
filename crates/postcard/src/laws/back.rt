//! What is written whole is read as it was, wherever its bytes have been meanwhile.
ghost use Rattle.postcard.specs.ReadBack.{IsReadBack, IsNotRefused};

use postcard_ser::Lawful;

/// States that bytes which `to_slice` or a variant of it wrote are read by `from_bytes` or a variant as a value that is alike
/// the first, and refused only if out of memory.
///
/// `round_trip` says this of one call; here the bytes may have gone anywhere in between.
///
/// # Requires
/// The value is valid, as the clause `valid` of `to_slice` says.
pub fn read_back<T: Lawful>(v: &T)
    requires { T.form.valid v.now }
    ensures alike { IsReadBack T.form.reads T.form.alike (T.form.writes v.now) v.now }
    ensures memory { IsNotRefused T.form.takes T.form.reads T.form.growing (T.form.writes v.now) }
{
    postcard_tree::laws::short_is_a_spelling();
}
