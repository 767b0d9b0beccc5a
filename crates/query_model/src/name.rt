//! Names and their bytes. Query files are read with `from_bytes`, and answers are printed with `as_bytes`.
ghost use Rattle.std.specs.Prelude.{◌≡◌, true};
ghost use Rattle.query_model.specs.NameForm.{IsName, is_name, name_of};
ghost use Rattle.query_model.specs.Text.{name_bytes};

use crate::Name;

impl Name {
    /// The name with these bytes: 1 to 32 ASCII letters, digits and underscores, the first of which is not a digit.
    #[tactic(auto, using(crate::proofs::Names::is_name_short))]
    pub fn from_bytes(text: &[u8]) -> Name
        requires { is_name text.now ≡ true }
        ensures bytes { result ≡ name_of text.now }
        ensures form { IsName result }
    {
        let mut bytes = [0; 32];
        let len = text.len();
        bytes[..len].copy_from_slice(text);
        Name {
            len: len as u8,
            bytes,
        }
    }

    /// The bytes of the name, without the zeros after them.
    pub fn as_bytes(&self) -> &[u8]
        ensures { result.now ≡ name_bytes self.now }
    {
        let end = (self.len as usize).min(self.bytes.len());
        &self.bytes[..end]
    }
}
