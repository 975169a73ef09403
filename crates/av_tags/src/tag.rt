//! A tag tree in memory (<https://minecraft.wiki/w/NBT_format>).

/// The types of tags, by their numbers in a file.
#[derive(Clone, Copy, Debug, PartialEq, Eq)]
pub enum TagType {
    /// No tag: the end of a Compound, or the type of the tags of an empty List.
    End = 0,
    Byte = 1,
    Short = 2,
    Int = 3,
    Long = 4,
    Float = 5,
    Double = 6,
    ByteArray = 7,
    Text = 8,
    List = 9,
    Compound = 10,
    IntArray = 11,
    LongArray = 12,
}

/// A tag's value.
#[cycle(tags)]
#[derive(Debug, PartialEq, Eq, Drop)]
pub enum Tag {
    Byte(i8),
    Short(i16),
    Int(i32),
    Long(i64),
    /// The 4 bytes of a float as a number, the highest first.
    Float(u32),
    /// The 8 bytes of a double as a number, the highest first.
    Double(u64),
    ByteArray(Vec<u8>),
    /// The bytes of a text, which need not be UTF-8.
    Text(Vec<u8>),
    /// Tags of one type. An empty one keeps its type.
    List(TagType, Vec<Tag>),
    /// Tags under names, in the order of the file.
    Compound(Vec<Named>),
    IntArray(Vec<i32>),
    LongArray(Vec<i64>),
}

/// A tag under a name.
#[cycle(tags)]
#[derive(Debug, PartialEq, Eq, Drop)]
pub struct Named {
    /// The name's bytes.
    pub name: Vec<u8>,
    /// The tag.
    pub tag: Tag,
}

/// A whole document: a Compound under a name.
#[derive(Debug, PartialEq, Eq, Drop)]
pub struct Root {
    /// The Compound's name.
    pub name: Vec<u8>,
    /// The tags in it, in order.
    pub tags: Vec<Named>,
}

impl TagType {
    ghost use Rattle.std.specs.Prelude.{◌≡◌};
    ghost use Rattle.av_tags.specs.TagTypes.{type_number, type_from};

    /// The type's number in a file.
    pub fn number(self) -> u8
        ensures { result ≡ type_number self }
    {
        self as u8
    }

    /// The type of a number, if there is one.
    pub fn from_number(number: u8) -> Option<Self>
        ensures { result ≡ type_from number }
    {
        match number {
            0 => Some(TagType::End),
            1 => Some(TagType::Byte),
            2 => Some(TagType::Short),
            3 => Some(TagType::Int),
            4 => Some(TagType::Long),
            5 => Some(TagType::Float),
            6 => Some(TagType::Double),
            7 => Some(TagType::ByteArray),
            8 => Some(TagType::Text),
            9 => Some(TagType::List),
            10 => Some(TagType::Compound),
            11 => Some(TagType::IntArray),
            12 => Some(TagType::LongArray),
            _ => None,
        }
    }
}

impl TagType {
    ghost use Rattle.std.specs.Prelude.{◌≡◌};
    ghost use Rattle.av_tags.specs.TagTypes.{is_end, is_compound};

    /// Whether it is `End`.
    pub fn is_end(self) -> bool
        ensures { result ≡ is_end self }
    {
        matches!(self, TagType::End)
    }

    /// Whether it is `Compound`.
    pub fn is_compound(self) -> bool
        ensures { result ≡ is_compound self }
    {
        matches!(self, TagType::Compound)
    }
}

impl Tag {
    ghost use Rattle.std.specs.Prelude.{◌≡◌, option_map};
    ghost use Rattle.std.specs.Option.{option_copied};
    ghost use Rattle.av_tags.specs.Nbt.{byte, int, text, list, compound, byte_array, long_array, items_of, members_of, tag_type_of};
    ghost use Rattle.av_tags.specs.View.{view, views, named_views};
    ghost use Rattle.av_tags.specs.Shape.{byte_of, int_of, text_of, longs_of, compound_of, items_of_list};

    /// A Byte.
    pub fn byte(number: i8) -> Self
        ensures { view result ≡ byte number }
    {
        Tag::Byte(number)
    }

    /// An Int.
    pub fn int(number: i32) -> Self
        ensures { view result ≡ int number }
    {
        Tag::Int(number)
    }

    /// A Text of these bytes, at most 65,535 for it to have a spelling.
    pub fn text(characters: Vec<u8>) -> Self
        ensures { view result ≡ text characters.items }
    {
        Tag::Text(characters)
    }

    /// A List of tags of that type. Only one whose tags all are of it has a spelling.
    pub fn list(tag_type: TagType, items: Vec<Tag>) -> Self
        ensures { view result ≡ list tag_type (items_of (views items.items)) }
    {
        Tag::List(tag_type, items)
    }

    /// A Compound. Only one in which no name stands twice has a spelling.
    pub fn compound(tags: Vec<Named>) -> Self
        ensures { view result ≡ compound (members_of (named_views tags.items)) }
    {
        Tag::Compound(tags)
    }

    /// A Byte Array.
    pub fn byte_array(bytes: Vec<u8>) -> Self
        ensures { view result ≡ byte_array bytes.items }
    {
        Tag::ByteArray(bytes)
    }

    /// A Long Array.
    pub fn long_array(numbers: Vec<i64>) -> Self
        ensures { view result ≡ long_array numbers.items }
    {
        Tag::LongArray(numbers)
    }

    /// The tag's type, which is never `End`.
    pub fn tag_type(&self) -> TagType
        ensures { result ≡ tag_type_of (view self.now) }
    {
        match self {
            Tag::Byte(_) => TagType::Byte,
            Tag::Short(_) => TagType::Short,
            Tag::Int(_) => TagType::Int,
            Tag::Long(_) => TagType::Long,
            Tag::Float(_) => TagType::Float,
            Tag::Double(_) => TagType::Double,
            Tag::ByteArray(_) => TagType::ByteArray,
            Tag::Text(_) => TagType::Text,
            Tag::List(_, _) => TagType::List,
            Tag::Compound(_) => TagType::Compound,
            Tag::IntArray(_) => TagType::IntArray,
            Tag::LongArray(_) => TagType::LongArray,
        }
    }

    /// The number of a Byte, or `None` of a tag of another type.
    pub fn as_byte(&self) -> Option<i8>
        ensures { result ≡ byte_of (view self.now) }
    {
        match self {
            Tag::Byte(value) => Some(*value),
            _ => None,
        }
    }

    /// The number of an Int, or `None` of a tag of another type.
    pub fn as_int(&self) -> Option<i32>
        ensures { result ≡ int_of (view self.now) }
    {
        match self {
            Tag::Int(value) => Some(*value),
            _ => None,
        }
    }

    /// The bytes of a Text, or `None` of a tag of another type.
    pub fn as_text(&self) -> Option<&[u8]>
        ensures { option_copied result ≡ text_of (view self.now) }
    {
        match self {
            Tag::Text(bytes) => Some(bytes.as_slice()),
            _ => None,
        }
    }

    /// The longs of a Long Array, or `None` of a tag of another type.
    pub fn as_longs(&self) -> Option<&[i64]>
        ensures { option_copied result ≡ longs_of (view self.now) }
    {
        match self {
            Tag::LongArray(longs) => Some(longs.as_slice()),
            _ => None,
        }
    }

    /// The tags of a Compound, or `None` of a tag of another type.
    pub fn as_members(&self) -> Option<&[Named]>
        ensures { option_map named_views (option_copied result) ≡ compound_of (view self.now) }
    {
        match self {
            Tag::Compound(members) => Some(members.as_slice()),
            _ => None,
        }
    }

    /// The tags of a List, or `None` of a tag of another type.
    pub fn as_items(&self) -> Option<&[Tag]>
        ensures { option_map views (option_copied result) ≡ items_of_list (view self.now) }
    {
        match self {
            Tag::List(_, items) => Some(items.as_slice()),
            _ => None,
        }
    }

    /// The bytes of a Text, taken out of it, or `None` of a tag of another type, which is dropped.
    pub fn into_text(self) -> Option<Vec<u8>>
        ensures { option_map (λ s. s.items) result ≡ text_of (view self) }
    {
        match self {
            Tag::Text(bytes) => Some(bytes),
            _ => None,
        }
    }

    /// The longs of a Long Array, taken out of it, or `None` of a tag of another type, which is dropped.
    pub fn into_longs(self) -> Option<Vec<i64>>
        ensures { option_map (λ zs. zs.items) result ≡ longs_of (view self) }
    {
        match self {
            Tag::LongArray(longs) => Some(longs),
            _ => None,
        }
    }

    /// The tags of a Compound, taken out of it, or `None` of a tag of another type, which is dropped.
    pub fn into_members(self) -> Option<Vec<Named>>
        ensures { option_map (λ ms. named_views ms.items) result ≡ compound_of (view self) }
    {
        match self {
            Tag::Compound(members) => Some(members),
            _ => None,
        }
    }

    /// The tags of a List, taken out of it, or `None` of a tag of another type, which is dropped.
    pub fn into_items(self) -> Option<Vec<Tag>>
        ensures { option_map (λ ts. views ts.items) result ≡ items_of_list (view self) }
    {
        match self {
            Tag::List(_, items) => Some(items),
            _ => None,
        }
    }
}

impl Named {
    ghost use Rattle.std.specs.Prelude.{◌≡◌};
    ghost use Rattle.av_tags.specs.View.{view, named_view};

    /// A tag under a name.
    pub fn new(name: Vec<u8>, tag: Tag) -> Self
        ensures { named_view result ≡ record { name = name.items; tag = view tag } }
    {
        Named { name, tag }
    }

    /// The bytes of the name.
    pub fn name(&self) -> &[u8]
        ensures { result.now ≡ (named_view self.now).name }
    {
        self.name.as_slice()
    }

    /// The tag.
    pub fn tag(&self) -> &Tag
        ensures { view result.now ≡ (named_view self.now).tag }
    {
        &self.tag
    }

    /// The tag, taken from its name.
    pub fn into_tag(self) -> Tag
        ensures { view result ≡ (named_view self).tag }
    {
        let Named { name: _, tag } = self;
        tag
    }
}
