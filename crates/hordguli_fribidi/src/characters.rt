//! Looks up single characters in tables that the C code passes: page numbers, pages of entries, and the
//! values of the entries. The tables have fixed sizes, chosen so that few bounds checks remain.
ghost use Rattle.std.specs.Prelude.{◌≡◌, ◌<◌, ◌==◌, ◌+◌, ◌*◌, ◌%◌, if◌then◌else◌};
ghost use Rattle.std.specs.Prelude.{length, map, slice_index_or};
ghost use Rattle.hordguli_fribidi.specs.Points.{bracket_at, brackets_at, brackets_by};
ghost use Rattle.hordguli_fribidi.specs.Points.{number_at, type_at, types_at};

/// Returns the type of a code point.
#[unsafe(no_mangle)]
pub extern "C" fn hordguli_fribidi_core_type(
    c: u32,
    index: &[u8; 4352],
    pages: &[u32; 65_536],
) -> u32
    ensures { result ≡ type_at index.now pages.now c }
{
    if c < 1_114_112 {
        type_on_page(c, index, pages)
    } else {
        type_past(c, pages)
    }
}

// Returns the type of a code point whose page is in the index.
fn type_on_page(c: u32, index: &[u8; 4352], pages: &[u32; 65_536]) -> u32
    requires { c < 1_114_112 }
    ensures { result ≡ type_at index.now pages.now c }
{
    type_in(pages, index[c as usize / 256], c)
}

// Returns the type of a code point, given the number of its page.
fn type_in(pages: &[u32; 65_536], page: u8, c: u32) -> u32
    ensures { result ≡ slice_index_or pages.now (page * 256 + c % 256) 0 }
{
    pages[page as usize * 256 + c as usize % 256]
}

// Returns the type of a code point past the end of the index.
#[cold]
#[inline(never)]
fn type_past(c: u32, pages: &[u32; 65_536]) -> u32
    ensures { result ≡ slice_index_or pages.now (c % 256) 0 }
{
    type_in(pages, 0, c)
}

/// Writes the type of each code point of a string to an array, or changes nothing if the lengths differ.
#[unsafe(no_mangle)]
pub extern "C" fn hordguli_fribidi_core_types(
    index: &[u8; 4352],
    pages: &[u32; 65_536],
    characters: &[u32],
    types: &mut [u32],
)
    ensures { types.new ≡ types_at index.now pages.now characters.now types.old }
{
    if types.len() == characters.len() {
        put_types(index, pages, characters, types);
    }
}

// Writes the types: four at a time as long as the pages of all four are in the index, and then one at a time.
fn put_types(index: &[u8; 4352], pages: &[u32; 65_536], characters: &[u32], types: &mut [u32])
    requires { length types.old ≡ length characters.now }
    ensures { types.new ≡ map (type_at index.now pages.now) characters.now }
{
    let mut at = 0;
    while characters.len() - at >= 4 {
        let (first, second) = (characters[at], characters[at + 1]);
        let (third, fourth) = (characters[at + 2], characters[at + 3]);
        if first >= 1_114_112 || second >= 1_114_112 || third >= 1_114_112 || fourth >= 1_114_112 {
            break;
        }
        types[at] = type_on_page(first, index, pages);
        types[at + 1] = type_on_page(second, index, pages);
        types[at + 2] = type_on_page(third, index, pages);
        types[at + 3] = type_on_page(fourth, index, pages);
        at += 4;
    }
    put_each_type(index, pages, &characters[at..], &mut types[at..]);
}

// Writes the types one at a time.
fn put_each_type(index: &[u8; 4352], pages: &[u32; 65_536], characters: &[u32], types: &mut [u32])
    requires { length types.old ≡ length characters.now }
    ensures { types.new ≡ map (type_at index.now pages.now) characters.now }
{
    for at in 0..characters.len() {
        types[at] = hordguli_fribidi_core_type(characters[at], index, pages);
    }
}

/// Returns the mirror or bracket of a code point, or 0 if it has none.
#[unsafe(no_mangle)]
pub extern "C" fn hordguli_fribidi_core_number(
    c: u32,
    index: &[u8; 4352],
    pages: &[u16; 4096],
    numbers: &[u32; 512],
) -> u32
    ensures { result ≡ number_at index.now pages.now numbers.now c }
{
    if c < 1_114_112 {
        let page = index[c as usize / 256];
        if page < 16 {
            let entry = pages[page as usize * 256 + c as usize % 256];
            if entry < 512 {
                return numbers[entry as usize];
            }
        }
    }
    number_by_parts(c, index, pages, numbers)
}

// Returns the mirror or bracket of any code point. Checks each index.
#[cold]
#[inline(never)]
fn number_by_parts(c: u32, index: &[u8; 4352], pages: &[u16; 4096], numbers: &[u32; 512]) -> u32
    ensures { result ≡ number_at index.now pages.now numbers.now c }
{
    let page = if c < 1_114_112 {
        index[c as usize / 256]
    } else {
        0
    };
    let at = page as usize * 256 + c as usize % 256;
    let entry = if at < 4096 { pages[at] as usize } else { 0 };
    if entry < 512 { numbers[entry] } else { 0 }
}

/// Sets `mirrored` to the mirror of a code point, or to the code point itself if it has no mirror. Returns
/// whether the code point has a mirror.
#[unsafe(no_mangle)]
pub extern "C" fn hordguli_fribidi_core_mirror(
    c: u32,
    mirrored: &mut u32,
    index: &[u8; 4352],
    pages: &[u16; 4096],
    numbers: &[u32; 512],
) -> u32
    ensures answer { result ≡ (if number_at index.now pages.now numbers.now c == 0 then 0 else 1) }
    ensures mirrored { mirrored.new ≡ (if number_at index.now pages.now numbers.now c == 0 then c
        else number_at index.now pages.now numbers.now c) }
{
    if c < 1_114_112 {
        let page = index[c as usize / 256];
        if page < 16 {
            let entry = pages[page as usize * 256 + c as usize % 256];
            if entry < 512 {
                return put_mirror(c, numbers[entry as usize], mirrored);
            }
        }
    }
    mirror_by_parts(c, mirrored, index, pages, numbers)
}

#[cold]
#[inline(never)]
fn mirror_by_parts(
    c: u32,
    mirrored: &mut u32,
    index: &[u8; 4352],
    pages: &[u16; 4096],
    numbers: &[u32; 512],
) -> u32
    ensures answer { result ≡ (if number_at index.now pages.now numbers.now c == 0 then 0 else 1) }
    ensures mirrored { mirrored.new ≡ (if number_at index.now pages.now numbers.now c == 0 then c
        else number_at index.now pages.now numbers.now c) }
{
    put_mirror(c, number_by_parts(c, index, pages, numbers), mirrored)
}

fn put_mirror(c: u32, mirror: u32, mirrored: &mut u32) -> u32
    ensures answer { result ≡ (if mirror == 0 then 0 else 1) }
    ensures mirrored { mirrored.new ≡ (if mirror == 0 then c else mirror) }
{
    *mirrored = if mirror == 0 { c } else { mirror };
    u32::from(mirror != 0)
}

/// Writes the bracket of each code point of a string to an array, or changes nothing if the lengths differ. A
/// character whose type is not ON has no bracket.
#[unsafe(no_mangle)]
pub extern "C" fn hordguli_fribidi_core_brackets(
    index: &[u8; 4352],
    pages: &[u16; 4096],
    numbers: &[u32; 512],
    characters: &[u32],
    types: &[u32],
    brackets: &mut [u32],
)
    ensures { brackets.new
        ≡ brackets_at index.now pages.now numbers.now characters.now types.now brackets.old }
{
    if types.len() == characters.len() && brackets.len() == characters.len() {
        put_brackets(index, pages, numbers, characters, types, brackets);
    }
}

// Returns the bracket of a code point with a given type.
fn bracket_at(
    index: &[u8; 4352],
    pages: &[u16; 4096],
    numbers: &[u32; 512],
    c: u32,
    number: u32,
) -> u32
    ensures { result ≡ bracket_at index.now pages.now numbers.now c number }
{
    if number == 64 {
        hordguli_fribidi_core_number(c, index, pages, numbers)
    } else {
        0
    }
}

fn put_brackets(
    index: &[u8; 4352],
    pages: &[u16; 4096],
    numbers: &[u32; 512],
    characters: &[u32],
    types: &[u32],
    brackets: &mut [u32],
)
    requires types { length types.now ≡ length characters.now }
    requires brackets { length brackets.old ≡ length characters.now }
    ensures { brackets.new ≡ brackets_by index.now pages.now numbers.now characters.now types.now }
{
    for at in 0..characters.len() {
        brackets[at] = bracket_at(index, pages, numbers, characters[at], types[at]);
    }
}
