ghost use Rattle.std.specs.Prelude.{◌≡◌, ◌+◌, ◌≤◌, [], ◌∷◌, ◌++◌, IfOk, OnOk, OnErr};
ghost use Rattle.wg_words.specs.declared.limits.TheConstants.{MOST_TYPE_WORDS};
ghost use Rattle.wg_typed.specs.Layout.{plain_extent, scalar_extent, type_extent, element_extent, struct_extent, fields_extent, rounded, types_of, field_types};
ghost use Rattle.wg_layout.specs.Sizes.{capped, capped_extent, table_of};

use sqlite_items::Items;
use std::alloc::{AllocError, Global};
use std::marker::Model;
use wg_tree::Scalar;
use wg_typed::{ElementType, Extent, TypeTree, TypedField, TypedStruct};
use wg_words::Items as Table;
use wg_words::limits::MOST_TYPE_WORDS;

/// One more than the greatest number of words that a type may have.
const ABOVE: u32 = MOST_TYPE_WORDS + 1;

/// What each struct of a text takes, by its number; 8,193 words stand for more than 8,192.
#[derive(Drop)]
pub struct Sizes {
    extents: Table<Extent>,
}

impl Model for Sizes {
    ghost use Rattle.std.specs.Prelude.{List};
    ghost use Rattle.wg_typed.specs.declared.types.Extent.{Extent as Taken};

    ghost Value = { List Taken };

    ghost view = { λ s. s.extents };
}

fn plain(words: u32) -> Extent
    ensures { result ≡ plain_extent words }
{
    Extent { words, even: false }
}

fn of_scalar(of: Scalar) -> Extent
    ensures { result ≡ scalar_extent of }
{
    match of {
        Scalar::Bool | Scalar::Int | Scalar::Uint | Scalar::Int16 | Scalar::Uint16 => plain(1),
        Scalar::Int64 | Scalar::Uint64 => Extent {
            words: 2,
            even: true,
        },
    }
}

/// The next even number of words, where that is wanted.
pub(crate) fn round_up(even: bool, words: u32) -> u32
    requires within { words ≤ MOST_TYPE_WORDS + 1 }
    ensures { result ≡ rounded even words }
{
    if even { words + words % 2 } else { words }
}

impl Sizes {
    /// The sizes of these structs.
    pub fn new(alloc: Global, structs: &Items<TypedStruct>) -> Result<Sizes, AllocError>
        ensures { IfOk result (λ sizes. sizes ≡ table_of structs.now) }
    {
        let mut sizes = Sizes {
            extents: Table::new(alloc),
        };
        for of in structs.as_slice() {
            sizes.add(of)?;
        }
        Ok(sizes)
    }

    /// One more struct, whose fields name only structs before it.
    pub fn add(&mut self, of: &TypedStruct) -> Result<(), AllocError>
        ensures ok { OnOk result (self.new ≡ self.old ++ capped_extent (fields_extent self.old (field_types of.now)) ∷ []) }
        ensures err { OnErr result (self.new ≡ self.old) }
    {
        let extent = self.of_fields(&of.fields);
        self.extents.push(extent)
    }

    /// The words of a type; 8,193 for more than 8,192.
    pub fn words(&self, of: &TypeTree) -> u32
        ensures { result ≡ capped (type_extent self.now of.now).words }
    {
        self.extent(of).words
    }

    /// What a type takes; 8,193 words for more than 8,192.
    pub fn extent(&self, of: &TypeTree) -> Extent
        ensures { result ≡ capped_extent (type_extent self.now of.now) }
    {
        match *of {
            TypeTree::Scalar { of } => of_scalar(of),
            TypeTree::Vector { size, .. } => plain(size.min(ABOVE)),
            TypeTree::Struct { number } => {
                let one = self.of_struct(number);
                Extent {
                    words: one.words.min(ABOVE),
                    even: one.even,
                }
            }
            TypeTree::Array { of, size } => {
                let each = self.of_element(of);
                let words = u64::from(size) * u64::from(each.words);
                Extent {
                    words: words.min(u64::from(ABOVE)) as u32,
                    even: each.even,
                }
            }
        }
    }

    fn of_element(&self, of: ElementType) -> Extent
        ensures { result ≡ element_extent self.now of }
    {
        match of {
            ElementType::Scalar { of } => of_scalar(of),
            ElementType::Vector { size, .. } => plain(size),
            ElementType::Struct { number } => self.of_struct(number),
        }
    }

    fn of_struct(&self, number: u32) -> Extent
        ensures { result ≡ struct_extent self.now number }
    {
        self.extents
            .get(number as usize)
            .copied()
            .unwrap_or(plain(0))
    }

    fn of_fields(&self, fields: &Items<TypedField>) -> Extent
        ensures { result ≡ capped_extent (fields_extent self.now (types_of fields.now)) }
    {
        let mut at = 0;
        let mut even = false;
        for field in fields.as_slice() {
            let of = self.extent(&field.of);
            at = (round_up(of.even, at) + of.words).min(ABOVE);
            even = even || of.even;
        }
        Extent {
            words: round_up(even, at).min(ABOVE),
            even,
        }
    }
}
