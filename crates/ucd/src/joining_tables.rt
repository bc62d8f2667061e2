//! Joining types and presentation forms, which are read from ArabicShaping.txt and UnicodeData.txt.
ghost use Rattle.std.specs.Prelude.{◌≡◌, IfOk, IfErr};
ghost use Rattle.ucd.specs.JoiningTables.{AreJoiningTablesOf, IsJoiningFaultOf, joining_type_of};
ghost use Rattle.ucd.specs.JoiningTables.{presentation_form_of};

use crate::claims::Claims;
use crate::fault::TableFault;
use crate::form::Form;
use crate::forms::Forms;
use crate::joining_file::read_claims;
use crate::joining_line::JoiningFile;
use crate::joining_pages::{JoiningPages, joining_pages};
use crate::joining_type::JoiningType;
use std::alloc::Global;
use std::marker::Model;

/// The contents of the files for cursive joining, in the order in which they are read. Their lines end, and
/// have comments and white space, as those of the seven table files.
///
/// A line of ArabicShaping.txt has four fields: a code point, a name, the joining type `R`, `L`, `D`, `C`,
/// `U` or `T`, and a joining group. A line of UnicodeData.txt has fifteen: the first is a code point, the
/// second its name, the third the general category, and the sixth the decomposition.
///
/// - A decomposition `<isolated> X`, `<final> X`, `<initial> X` or `<medial> X` makes the line's character
///   this form of X. Other decompositions, such as one of two code points, are ignored.
/// - A name that ends in `, First>` begins a range. The next line must have a name that ends in `, Last>`,
///   and is about the code points up to its own.
#[derive(Clone, Copy, Debug)]
pub struct JoiningFiles<'a> {
    pub arabic_shaping: &'a [u8],
    pub unicode_data: &'a [u8],
}

/// The joining type of each character, in pages, and the presentation forms of letters. The pages of Unicode
/// 15.0 need 35 KB.
#[derive(Debug, Drop)]
pub struct JoiningTables {
    types: JoiningPages,
    forms: Forms,
}

impl Model for JoiningTables {
    ghost use Rattle.ucd.specs.JoiningContents.{JoiningContents};

    ghost Value = { JoiningContents };

    ghost view = { λ t. record {
      index = t.types.index.items;
      entries = t.types.entries.items;
      forms = t.forms.map.entries;
    } };
}

impl JoiningTables {
    /// Reads the tables from the files. Fails at the first faulty line, in file order and then line order,
    /// with the first cause that applies. The numbers of the files in faults are 8 and 9. Allocates 2.2 MB,
    /// and frees all but the tables.
    ///
    /// `Value` is also the cause of a line that ends no range after one that begins a range, and of one that
    /// ends a range without such a line before it. `Reversed` is the cause if the end of a range is not above
    /// its start, and `NamedBefore` also that of a form that an earlier line has for the same letter.
    pub fn read(alloc: Global, files: &JoiningFiles<'_>) -> Result<JoiningTables, TableFault>
        ensures ok { IfOk result (AreJoiningTablesOf files.now) }
        ensures err { IfErr result (IsJoiningFaultOf files.now) }
    {
        let arabic_shaping = read_claims(alloc, JoiningFile::ArabicShaping, files.arabic_shaping)?;
        let unicode_data = read_claims(alloc, JoiningFile::UnicodeData, files.unicode_data)?;
        let types = joining_pages(alloc, &arabic_shaping.types, &unicode_data.types);
        let Claims { types: _, forms } = unicode_data;
        match types {
            Ok(types) => Ok(JoiningTables { types, forms }),
            Err(_) => Err(TableFault::memory()),
        }
    }

    /// Returns the joining type of a character. If ArabicShaping.txt does not list it, the type is
    /// `Transparent` for the general categories Mn, Me and Cf, and `NonJoining` for all others.
    #[tactic(auto, unfolding(crate::specs::JoiningTables::joining_type_of))]
    pub fn joining_type(&self, c: char) -> JoiningType
        ensures { result ≡ joining_type_of self.now c }
    {
        self.types.get(c)
    }

    /// Returns the presentation form of a letter, such as U+FE90 for the final form of U+0628. Returns `None`
    /// if the letter lacks the form. A letter between the first and the last letter with forms needs a
    /// search, which is logarithmic in the number of forms.
    #[tactic(auto, unfolding(crate::specs::JoiningTables::presentation_form_of))]
    pub fn presentation_form(&self, letter: char, form: Form) -> Option<char>
        ensures { result ≡ presentation_form_of self.now form letter }
    {
        char::from_u32(self.forms.get(form.key(u32::from(letter)))?)
    }
}
