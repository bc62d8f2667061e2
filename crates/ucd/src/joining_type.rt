//! Joining types (the Unicode Standard, section 9.2), and how ArabicShaping.txt and UnicodeData.txt express
//! them.
ghost use Rattle.std.specs.Prelude.{◌≡◌, codes};
ghost use Rattle.ucd.specs.JoiningLines.{joining_type_named, joining_type_by_category};

/// The property Joining_Type.
#[derive(Clone, Copy, Debug, PartialEq, Eq)]
pub enum JoiningType {
    RightJoining,
    LeftJoining,
    DualJoining,
    JoinCausing,
    NonJoining,
    Transparent,
}

impl JoiningType {
    // Returns the joining type with this name in ArabicShaping.txt. Returns `None` if no type has the name.
    pub(crate) fn from_name(name: &[u8]) -> Option<JoiningType>
        ensures { result ≡ joining_type_named name.now }
    {
        match name {
            b"R" => Some(JoiningType::RightJoining),
            b"L" => Some(JoiningType::LeftJoining),
            b"D" => Some(JoiningType::DualJoining),
            b"C" => Some(JoiningType::JoinCausing),
            b"U" => Some(JoiningType::NonJoining),
            b"T" => Some(JoiningType::Transparent),
            _ => None,
        }
    }

    // Returns the joining type of characters of a general category that ArabicShaping.txt does not list.
    pub(crate) fn by_category(category: &[u8]) -> JoiningType
        ensures { result ≡ joining_type_by_category category.now }
    {
        match category {
            b"Mn" | b"Me" | b"Cf" => JoiningType::Transparent,
            _ => JoiningType::NonJoining,
        }
    }
}
