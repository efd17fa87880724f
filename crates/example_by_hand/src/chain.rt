//! A type that holds itself: its calls recurse by functions of their own.
ghost use Rattle.std.specs.Prelude.{Some, ◌≡◌, true};
ghost use Rattle.postcard_ser.specs.Writing.{Writes};
ghost use Rattle.postcard_tree.specs.Reading.{Spelled};
ghost use Rattle.postcard_de.specs.Deserializer.{OutcomeOf};
ghost use Rattle.example_by_hand.specs.Chain.{chain_tree, ReadsChain, RefusesChain};

use postcard_de::de_flavors::{Bytes, Flavor};
use postcard_de::{DeserializeForm, DeserializeOwnedForm, Deserializer};
use postcard_ser::ser_flavors::Flavor as Writing;
use postcard_ser::{LawfulForm, Serialize, Serializer};
use postcard_tree::{Error, GrowsForm, Readable, Result};

/// Bytes, each before the rest of the chain.
#[derive(Drop)]
pub enum Chain {
    End,
    More(u8, Box<Chain>),
}

/// The form of a chain: what is done by the form of a type is written for it below.
pub struct AsChain;

impl Readable for Chain {
    ghost use Rattle.std.specs.Prelude.{Some, ⊤, true};
    ghost use Rattle.example_by_hand.specs.Chain.{chain_tree, TakesChain, ReadsChain, RefusesChain, bytes_in, chain_laws};

    type Form = AsChain;

    ghost form = { record {
      writes = λ v. Some (chain_tree v);
      valid = λ _. ⊤;
      takes = TakesChain;
      reads = ReadsChain;
      refuses = RefusesChain;
      alike = λ v w. bytes_in v ≡ bytes_in w;
      growing = true;
      laws = chain_laws;
    } };
}

impl GrowsForm<Chain> for AsChain {
    fn form_grows() -> bool {
        true
    }
}

impl Serialize for Chain {
    fn serialize<F: Writing>(&self, serializer: &mut Serializer<F>) -> Result<()> {
        write_chain(self, serializer)
    }
}

/// Writes a chain, from its first byte on.
fn write_chain<F: Writing>(chain: &Chain, serializer: &mut Serializer<F>) -> Result<()>
    ensures writes { Writes F.took F.refused serializer.old.output
        (Some (chain_tree chain.now)) result serializer.new.output }
    ensures same { F.same serializer.old.output serializer.new.output }
{
    match chain {
        Chain::End => serializer.serialize_unit_variant(0),
        Chain::More(byte, rest) => {
            serializer.serialize_tuple_variant(1, 2)?;
            serializer.serialize_field(byte)?;
            write_chain(rest, serializer)
        }
    }
}

impl LawfulForm<Chain> for AsChain {
    ghost use Rattle.example_by_hand.specs.Chain.{chain_reads_back};

    ghost form_reads_back = { λ v t h e. chain_reads_back v t e };
}

impl<B: Bytes> DeserializeForm<B, Chain> for AsChain {
    fn deserialize_form<F: Flavor<Taken = B>>(d: &mut Deserializer<F>) -> Result<Chain> {
        read_chain(d)
    }
}

impl DeserializeOwnedForm<Chain> for AsChain {
    fn deserialize_owned_form<F: Flavor>(d: &mut Deserializer<F>) -> Result<Chain> {
        read_chain(d)
    }
}

/// Reads a chain. It ends, since each call reads bytes that the source gives once.
fn read_chain<F: Flavor>(d: &mut Deserializer<F>) -> Result<Chain>
    ensures { OutcomeOf F.source d.old d.new result (Spelled ReadsChain) RefusesChain true }
{
    match d.deserialize_enum()? {
        0 => Ok(Chain::End),
        1 => {
            let byte = d.deserialize_u8()?;
            let rest = read_chain(d)?;
            match Box::new(d.allocator(), rest) {
                Ok(rest) => Ok(Chain::More(byte, rest)),
                Err(_) => Err(Error::OutOfMemory),
            }
        }
        _ => Err(Error::SerdeDeCustom),
    }
}
