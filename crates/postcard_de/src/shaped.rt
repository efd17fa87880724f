//! How message types are read: by their shapes.
ghost use Rattle.postcard_tree.specs.Reading.{Spelled};
ghost use Rattle.postcard_de.specs.Deserializer.{OutcomeOf};

use crate::Deserializer;
use crate::de_flavors::{Bytes, Flavor};
use crate::deserialize::{
    Borrowing, Deserialize, DeserializeForm, DeserializeOwned, DeserializeOwnedForm, Owning, Reads,
};
use postcard_tree::{AsShape, MatchesShape, Readable, Result};

#[inline(always)]
fn read_shape<W: Reads<M::Shape, F>, M: MatchesShape + Drop, F: Flavor>(
    d: &mut Deserializer<F>,
) -> Result<M>
where
    M::Shape: Readable,
    ensures { OutcomeOf F.source d.old d.new result (Spelled M.form.reads) M.form.refuses
        M.form.growing }
{
    let it = W::read(d)?;
    Ok(M::from_shape(it))
}

impl<B: Bytes, M: MatchesShape + Drop> DeserializeForm<B, M> for AsShape
where
    M::Shape: Deserialize<B>,
{
    #[inline(always)]
    fn deserialize_form<F: Flavor<Taken = B>>(d: &mut Deserializer<F>) -> Result<M> {
        read_shape::<Borrowing, M, F>(d)
    }
}

impl<M: MatchesShape + Drop> DeserializeOwnedForm<M> for AsShape
where
    M::Shape: DeserializeOwned,
{
    #[inline(always)]
    fn deserialize_owned_form<F: Flavor>(d: &mut Deserializer<F>) -> Result<M> {
        read_shape::<Owning, M, F>(d)
    }
}
