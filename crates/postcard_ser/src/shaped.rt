//! How references are written.
use crate::lawful::{Lawful, LawfulForm};
use crate::ser_flavors::Flavor;
use crate::serialize::Serialize;
use crate::serializer::Serializer;
use postcard_tree::{Own, Result};

impl<'a, T: Serialize> Serialize for &'a T {
    #[inline(always)]
    fn serialize<F: Flavor>(&self, serializer: &mut Serializer<F>) -> Result<()> {
        (**self).serialize(serializer)
    }
}

impl<'a, T: Lawful> LawfulForm<&'a T> for Own {
    ghost form_reads_back = { λ v t h e. T.reads_back v.now t h e };
}
