//! Compares the two stores. The tests must also pass if any one allocation fails: a failed `push` or
//! `replace` changes nothing, and is tried again.
ghost use Rattle.std.specs.Prelude.{◌≡◌, ◌+◌, ◌-◌, ◌^◌, ◌<◌, sum_by};

use std::alloc::{AllocError, Global};
use std::ops::Range;
use std::process::Abort;
use std::test::Fail;
use store::{Exchange, Exchanger, Found, Measured, ParagraphStore, TreeStore, VecStore};

// An item, identified by its name.
#[derive(Clone, Copy, Debug, PartialEq, Eq)]
struct Item {
    name: u32,
    chars: usize,
    lines: usize,
    bytes: usize,
    utf16: usize,
}

impl Measured for Item {
    ghost chars = { λ item. item.chars };

    ghost lines = { λ item. item.lines };

    ghost bytes = { λ item. item.bytes };

    ghost utf16 = { λ item. item.utf16 };

    fn chars(&self) -> usize {
        self.chars
    }

    fn lines(&self) -> usize {
        self.lines
    }

    fn bytes(&self) -> usize {
        self.bytes
    }

    fn utf16(&self) -> usize {
        self.utf16
    }
}

// The part of an item is its number of lines.
impl Exchange for Item {
    type Part = usize;

    ghost use Rattle.std.specs.Prelude.{refl};

    ghost fits = { λ item lines. lines < 2 ^ 64 };

    ghost exchanged = { λ item lines. record item { lines = lines } };

    ghost handed_out = { λ item _. item.lines };

    fn exchange(&mut self, part: &mut usize) {
        std::mem::swap(&mut self.lines, part);
    }

    ghost keeps_chars = { λ item lines fits. refl };

    ghost keeps_bytes = { λ item lines fits. refl };

    ghost keeps_utf16 = { λ item lines fits. refl };
}

// An exchanger that adds a number to each part. Parts are numbers of lines.
#[derive(Drop)]
struct Adder {
    more: usize,
}

impl Exchanger<Item> for Adder {
    type Part = usize;

    ghost use Rattle.std.specs.Prelude.{refl, ℕ};

    // The number to add. No work is counted.
    ghost Kind = { ℕ };

    ghost kind = { λ by. by.more };

    ghost fits = { λ more _ lines. lines + more < 2 ^ 64 };

    ghost exchanged = { λ more item lines. record item { lines = lines + more } };

    ghost handed_out = { λ _ item _. item.lines };

    ghost worked = { λ _. 0 };

    ghost cost = { λ _ _. 0 };

    ghost keeps_chars = { λ _ _ _ _. refl };

    ghost keeps_bytes = { λ _ _ _ _. refl };

    ghost keeps_utf16 = { λ _ _ _ _. refl };

    fn exchange(&mut self, item: &mut Item, part: &mut usize) {
        *part += self.more;
        std::mem::swap(&mut item.lines, part);
    }
}

// All sums in the tests are below this limit.
const LIMIT: usize = 1 << 40;

// Returns the sums of characters and of lines. A sum above 2^64−1 becomes 2^64−1.
fn sums(items: &[Item]) -> (usize, usize)
    ensures chars { result.0 < 2 ^ 64 - 1 → result.0 ≡ sum_by (λ item. item.chars) items.now }
    ensures lines { result.1 < 2 ^ 64 - 1 → result.1 ≡ sum_by (λ item. item.lines) items.now }
{
    let mut chars: usize = 0;
    let mut lines: usize = 0;
    for item in items {
        chars = chars.saturating_add(item.chars);
        lines = lines.saturating_add(item.lines);
    }
    (chars, lines)
}

// Returns the sums of bytes and of code units. A sum above 2^64−1 becomes 2^64−1.
fn encoded_sums(items: &[Item]) -> (usize, usize)
    ensures bytes { result.0 < 2 ^ 64 - 1 → result.0 ≡ sum_by (λ item. item.bytes) items.now }
    ensures utf16 { result.1 < 2 ^ 64 - 1 → result.1 ≡ sum_by (λ item. item.utf16) items.now }
{
    let mut bytes: usize = 0;
    let mut utf16: usize = 0;
    for item in items {
        bytes = bytes.saturating_add(item.bytes);
        utf16 = utf16.saturating_add(item.utf16);
    }
    (bytes, utf16)
}

#[tactic(auto, using(store::proofs::ListLemmas::sum_of_splice))]
// Replaces items. Asserts that the range is within the store and that all sums are below `LIMIT`.
fn replace<S: ParagraphStore<Item>>(
    rt: &impl Abort,
    store: &mut S,
    range: Range<usize>,
    new_items: Vec<Item>,
) -> Result<Vec<Item>, (Vec<Item>, AllocError)> {
    let (chars, lines) = sums(&new_items);
    assert!(rt; chars < LIMIT && lines < LIMIT);
    assert!(rt; store.total_chars() < LIMIT && store.total_lines() < LIMIT);
    let (bytes, utf16) = encoded_sums(&new_items);
    assert!(rt; bytes < LIMIT && utf16 < LIMIT);
    assert!(rt; store.total_bytes() < LIMIT && store.total_utf16() < LIMIT);
    assert!(rt; range.start <= range.end && range.end <= store.count());
    store.replace(range, new_items)
}

// Appends an item. Asserts that all sums are below `LIMIT`.
fn push<S: ParagraphStore<Item>>(
    rt: &impl Abort,
    store: &mut S,
    item: Item,
) -> Result<(), (Item, AllocError)> {
    assert!(rt; item.chars < LIMIT && item.lines < LIMIT);
    assert!(rt; item.bytes < LIMIT && item.utf16 < LIMIT);
    assert!(rt; store.total_chars() < LIMIT && store.total_lines() < LIMIT);
    assert!(rt; store.total_bytes() < LIMIT && store.total_utf16() < LIMIT);
    store.push(item)
}

// Returns the sum of the parts, with `more` added to each part. A sum above 2^64−1 becomes 2^64−1.
fn sum(parts: &[usize], more: usize) -> usize
    ensures { result < 2 ^ 64 - 1 → result ≡ sum_by (λ lines. lines + more) parts.now }
{
    let mut sum: usize = 0;
    for lines in parts {
        sum = sum.saturating_add(lines.saturating_add(more));
    }
    sum
}

// Exchanges the parts. Asserts that there is one part per item and that the new sum is below `LIMIT`.
fn exchange_all<S: ParagraphStore<Item>>(
    rt: &impl Abort,
    store: &mut S,
    by: &mut Adder,
    parts: &mut Vec<usize>,
) {
    assert!(rt; sum(parts, by.more) < LIMIT && parts.len() == store.count());
    store.exchange_all_by(by, parts);
}

// Exchanges the part of each item through `Exchange`. Asserts that there is one part per item and that the
// new sum is below `LIMIT`.
fn exchange_lines<S: ParagraphStore<Item>>(rt: &impl Abort, store: &mut S, parts: &mut Vec<usize>) {
    assert!(rt; sum(parts, 0) < LIMIT && parts.len() == store.count());
    store.exchange_all(parts);
}

// Allocates a list, and tries again after an allocation failure.
fn with_room<T>(alloc: Global, count: usize) -> Result<Vec<T>, AllocError> {
    match Vec::with_capacity(alloc, count) {
        Ok(items) => Ok(items),
        Err(_) => Vec::with_capacity(alloc, count),
    }
}

// Makes items with consecutive names and different sizes, some of them empty.
fn items(alloc: Global, first: u32, count: usize) -> Result<Vec<Item>, AllocError> {
    let mut items = with_room(alloc, count)?;
    let mut name = first;
    for _ in 0..count {
        items.push(item_of(name))?;
        name = name.wrapping_add(1);
    }
    Ok(items)
}

// Makes the item of a name.
fn item_of(name: u32) -> Item {
    Item {
        name,
        chars: name as usize % 5,
        lines: name as usize % 3,
        bytes: name as usize % 7,
        utf16: name as usize % 4,
    }
}

// Makes items of one character and one line each.
fn small_items(alloc: Global, count: usize) -> Result<Vec<Item>, AllocError> {
    let mut items = with_room(alloc, count)?;
    let mut name: u32 = 0;
    for _ in 0..count {
        items.push(Item {
            name,
            chars: 1,
            lines: 1,
            bytes: 1,
            utf16: 1,
        })?;
        name = name.wrapping_add(1);
    }
    Ok(items)
}

// Returns whether two searches have the same result, apart from the number of visited items.
fn is_same(found: Found, other: Found) -> bool {
    Found { visits: 0, ..found } == Found { visits: 0, ..other }
}

// Returns whether both stores return the same result for each character, line, byte, code unit and item.
fn finds_same<S: ParagraphStore<Item>, T: ParagraphStore<Item>>(left: &S, right: &T) -> bool {
    let (chars, lines) = (left.total_chars(), left.total_lines());
    if right.total_chars() != chars || right.total_lines() != lines {
        return false;
    }
    let mut all_right = true;
    for pos in 0..chars {
        all_right &= is_same(left.find_char(pos), right.find_char(pos));
    }
    for n in 0..lines {
        all_right &= is_same(left.find_line(n), right.find_line(n));
    }
    all_right & finds_same_units(left, right) & finds_same_items(left, right)
}

// Returns whether both stores have the same search result for each byte and each code unit.
fn finds_same_units<S: ParagraphStore<Item>, T: ParagraphStore<Item>>(left: &S, right: &T) -> bool {
    let (bytes, utf16) = (left.total_bytes(), left.total_utf16());
    if right.total_bytes() != bytes || right.total_utf16() != utf16 {
        return false;
    }
    let mut all_right = true;
    for byte in 0..bytes {
        all_right &= is_same(left.find_byte(byte), right.find_byte(byte));
    }
    for unit in 0..utf16 {
        all_right &= is_same(left.find_utf16(unit), right.find_utf16(unit));
    }
    all_right
}

// Returns whether both stores have the same search result for each item.
fn finds_same_items<S: ParagraphStore<Item>, T: ParagraphStore<Item>>(left: &S, right: &T) -> bool {
    let count = left.count();
    if right.count() != count {
        return false;
    }
    let mut all_right = true;
    for index in 0..count {
        all_right &= is_same(left.find_item(index), right.find_item(index));
    }
    all_right
}

// Returns whether both stores have the same items.
fn has_same<S: ParagraphStore<Item>, T: ParagraphStore<Item>>(left: &S, right: &T) -> bool {
    let mut all_right = left.count() == right.count() && left.get(left.count()).is_none();
    for index in 0..left.count() {
        all_right &= left.get(index) == right.get(index);
    }
    all_right
}

// Lists all items of a store, and tries again after an allocation failure.
fn list_of<S: ParagraphStore<Item>>(alloc: Global, store: &S) -> Result<Vec<&Item>, AllocError> {
    match store.list(alloc) {
        Ok(list) => Ok(list),
        Err(_) => store.list(alloc),
    }
}

// Returns whether a list has the items that `get` returns.
fn is_list_of<S: ParagraphStore<Item>>(store: &S, list: &[&Item]) -> bool {
    let mut all_right = list.len() == store.count();
    for (index, item) in list.iter().enumerate() {
        all_right &= store.get(index) == Some(*item);
    }
    all_right
}

// Returns whether a store lists the items that `get` returns.
fn lists_its_own<S: ParagraphStore<Item>>(alloc: Global, store: &S) -> Result<bool, AllocError> {
    let list = list_of(alloc, store)?;
    Ok(is_list_of(store, &list))
}

// Returns whether there are `count` items, with consecutive names from `first` on.
fn are_named(items: &[Item], first: u32, count: usize) -> bool {
    let mut all_right = items.len() == count;
    let mut name = first;
    for item in items {
        all_right &= item.name == name;
        name = name.wrapping_add(1);
    }
    all_right
}

fn size_of<S: ParagraphStore<Item>>(store: &S) -> [usize; 5] {
    let (chars, lines) = (store.total_chars(), store.total_lines());
    let (bytes, utf16) = (store.total_bytes(), store.total_utf16());
    [store.count(), chars, lines, bytes, utf16]
}

// Replaces items, and tries again after an allocation failure. Asserts that a failed call returns the new
// items in order, and leaves the sums of the store unchanged.
fn replace_again<S: ParagraphStore<Item>>(
    rt: &impl Abort,
    store: &mut S,
    range: (usize, usize),
    first: u32,
    new_items: Vec<Item>,
) -> Result<Vec<Item>, AllocError> {
    let (added, size) = (new_items.len(), size_of(store));
    match replace(rt, store, range.0..range.1, new_items) {
        Ok(old) => Ok(old),
        Err((new_items, _)) => {
            assert!(rt; size_of(store) == size && are_named(&new_items, first, added));
            match replace(rt, store, range.0..range.1, new_items) {
                Ok(old) => Ok(old),
                Err((_, fault)) => Err(fault),
            }
        }
    }
}

// Appends an item, and tries again after an allocation failure. Asserts that a failed call returns the item,
// and leaves the sums of the store unchanged.
fn push_again<S: ParagraphStore<Item>>(
    rt: &impl Abort,
    store: &mut S,
    item: Item,
) -> Result<(), AllocError> {
    let size = size_of(store);
    match push(rt, store, item) {
        Ok(()) => Ok(()),
        Err((back, _)) => {
            assert!(rt; size_of(store) == size && back == item);
            match push(rt, store, back) {
                Ok(()) => Ok(()),
                Err((_, fault)) => Err(fault),
            }
        }
    }
}

// Replaces the items of a range with `count` others, and returns the old items.
fn replaced<S: ParagraphStore<Item>>(
    rt: &impl Abort,
    alloc: Global,
    store: &mut S,
    range: (usize, usize),
    (first, count): (u32, usize),
) -> Result<Vec<Item>, AllocError> {
    replace_again(rt, store, range, first, items(alloc, first, count)?)
}

// Returns whether both stores have returned the same items, and as many items as the range contains.
fn are_replaced(old: &[Item], other: &[Item], (start, end): (usize, usize)) -> bool {
    old == other && Some(old.len()) == end.checked_sub(start)
}

// A tree and a list with the same items.
#[derive(Drop)]
struct Both<S: ParagraphStore<Item>, T: ParagraphStore<Item>> {
    tree: S,
    list: T,
}

// Replaces the items of a range in both stores. Asserts that both return the same old items, and that they
// are equal afterwards.
fn replace_both<S: ParagraphStore<Item>, T: ParagraphStore<Item>>(
    rt: &impl Abort,
    alloc: Global,
    both: &mut Both<S, T>,
    range: (usize, usize),
    new_items: (u32, usize),
) -> Result<(), AllocError> {
    let old = replaced(rt, alloc, &mut both.tree, range, new_items)?;
    let other = replaced(rt, alloc, &mut both.list, range, new_items)?;
    let are_same = are_replaced(&old, &other, range);
    drop(old);
    drop(other);
    assert!(rt; are_same);
    check_both(rt, alloc, both)
}

// Asserts that both stores have the same items and the same search results.
fn check_both<S: ParagraphStore<Item>, T: ParagraphStore<Item>>(
    rt: &impl Abort,
    alloc: Global,
    both: &Both<S, T>,
) -> Result<(), AllocError> {
    assert!(rt; has_same(&both.tree, &both.list));
    assert!(rt; lists_its_own(alloc, &both.tree)? && lists_its_own(alloc, &both.list)?);
    assert!(rt; finds_same(&both.tree, &both.list));
    Ok(())
}

// Returns a pseudorandom number below a limit, or 0 if the limit is 0.
fn below(seed: u64, limit: usize) -> usize {
    if limit == 0 {
        return 0;
    }
    ((seed.wrapping_mul(0x9E37_79B9_7F4A_7C15) >> 20) % limit as u64) as usize
}

// A range, and the first name and the count of the items that replace it.
type Row = ((usize, usize), (u32, usize));

static ROWS: [Row; 10] = [
    ((0, 0), (0, 0)),
    ((0, 0), (1, 7)),
    ((3, 3), (20, 0)),
    ((0, 0), (20, 2)),
    ((9, 9), (30, 3)),
    ((2, 5), (40, 0)),
    ((0, 9), (50, 40)),
    ((0, 39), (90, 1)),
    ((1, 2), (91, 30)),
    ((0, 31), (0, 0)),
];

fn replace_rows<S: ParagraphStore<Item>, T: ParagraphStore<Item>>(
    rt: &impl Abort,
    alloc: Global,
    both: &mut Both<S, T>,
    rows: &[Row],
) -> Result<(), AllocError> {
    for (range, new_items) in rows {
        replace_both(rt, alloc, both, *range, *new_items)?;
    }
    Ok(())
}

fn check_rows<S: ParagraphStore<Item>, T: ParagraphStore<Item>>(
    rt: &impl Abort,
    alloc: Global,
    both: &mut Both<S, T>,
) -> Result<(), AllocError> {
    replace_rows(rt, alloc, both, &ROWS)?;
    assert!(rt; both.tree.count() == 0);
    Ok(())
}

#[test]
fn both_stores_agree_after_empty_and_whole_replacements(rt: HostRuntime) -> Result<(), Fail> {
    Ok(check_stores(&rt, rt.alloc(), Check::Rows)?)
}

fn replace_at_random<S: ParagraphStore<Item>, T: ParagraphStore<Item>>(
    rt: &impl Abort,
    alloc: Global,
    both: &mut Both<S, T>,
) -> Result<(), AllocError> {
    for round in 0..400u32 {
        let seed = u64::from(round) * 7 + 1;
        let count = both.list.count();
        let start = below(seed, count.saturating_add(1));
        let most = if round % 20 == 19 { 60 } else { 4 };
        let removed = below(seed + 1, (count - start.min(count)).min(most) + 1);
        let added = below(seed + 2, if round % 20 == 9 { 80 } else { 4 });
        let range = (start, start.saturating_add(removed));
        replace_both(rt, alloc, both, range, (round * 100, added))?;
    }
    Ok(())
}

#[test]
fn both_stores_agree_after_random_replacements(rt: HostRuntime) -> Result<(), Fail> {
    Ok(check_stores(&rt, rt.alloc(), Check::Random)?)
}

// Appends 100 items to both stores, one after the other.
fn push_both<S: ParagraphStore<Item>, T: ParagraphStore<Item>>(
    rt: &impl Abort,
    alloc: Global,
    both: &mut Both<S, T>,
) -> Result<(), AllocError> {
    for name in 0..100u32 {
        push_again(rt, &mut both.tree, item_of(name))?;
        push_again(rt, &mut both.list, item_of(name))?;
        check_both(rt, alloc, both)?;
    }
    assert!(rt; has_names(&both.list, &[0, 1, 2, 3]));
    assert!(rt; both.list.count() == 100);
    Ok(())
}

#[test]
fn both_stores_agree_after_items_are_appended(rt: HostRuntime) -> Result<(), Fail> {
    Ok(check_stores(&rt, rt.alloc(), Check::Pushes)?)
}

static THREE_BY_TWO: [Row; 2] = [((0, 0), (1, 8)), ((2, 5), (11, 2))];

// Returns whether the first items have these names.
fn has_names<S: ParagraphStore<Item>>(store: &S, names: &[u32]) -> bool {
    let mut all_right = true;
    for (index, name) in names.iter().enumerate() {
        all_right &= match store.get(index) {
            Some(item) => item.name == *name,
            None => false,
        };
    }
    all_right
}

fn check_names<S: ParagraphStore<Item>, T: ParagraphStore<Item>>(
    rt: &impl Abort,
    alloc: Global,
    both: &mut Both<S, T>,
) -> Result<(), AllocError> {
    replace_rows(rt, alloc, both, &THREE_BY_TWO)?;
    assert!(rt; has_names(&both.list, &[1, 2, 11, 12, 6, 7, 8]));
    Ok(())
}

#[test]
fn two_items_take_the_place_of_three(rt: HostRuntime) -> Result<(), Fail> {
    Ok(check_stores(&rt, rt.alloc(), Check::ThreeByTwo)?)
}

// Returns whether each item has seven more lines than its new part, and each returned part is the item's
// previous number of lines.
fn are_exchanged<S: ParagraphStore<Item>>(store: &S, parts: &[usize]) -> bool {
    let mut all_right = parts.len() == store.count();
    for (index, lines) in parts.iter().enumerate() {
        all_right &= *lines == index.wrapping_add(1) % 3;
        all_right &= match store.get(index) {
            Some(item) => item.lines == index.wrapping_add(7),
            None => false,
        };
    }
    all_right
}

// Returns the numbers below 50.
fn numbers(alloc: Global) -> Result<Vec<usize>, AllocError> {
    let mut numbers = with_room(alloc, 50)?;
    for number in 0..50 {
        numbers.push(number)?;
    }
    Ok(numbers)
}

// Returns whether each returned part is seven more than the corresponding part of the first exchange.
fn are_back(parts: &[usize]) -> bool {
    let mut all_right = true;
    for (index, lines) in parts.iter().enumerate() {
        all_right &= *lines == index.wrapping_add(7);
    }
    all_right
}

fn exchange_both<S: ParagraphStore<Item>, T: ParagraphStore<Item>>(
    rt: &impl Abort,
    alloc: Global,
    both: &mut Both<S, T>,
) -> Result<(), AllocError> {
    replace_both(rt, alloc, both, (0, 0), (1, 50))?;
    let mut by = Adder { more: 7 };
    let mut parts = numbers(alloc)?;
    exchange_all(rt, &mut both.tree, &mut by, &mut parts);
    let is_tree_right = are_exchanged(&both.tree, &parts);
    exchange_lines(rt, &mut both.tree, &mut parts);
    let is_tree_back = are_back(&parts);
    drop(parts);
    let mut others = numbers(alloc)?;
    exchange_all(rt, &mut both.list, &mut by, &mut others);
    let is_list_right = are_exchanged(&both.list, &others);
    exchange_lines(rt, &mut both.list, &mut others);
    let is_list_back = are_back(&others);
    drop(others);
    assert!(rt; is_tree_right && is_list_right && is_tree_back && is_list_back);
    check_both(rt, alloc, both)
}

#[test]
fn parts_are_exchanged_in_the_order_of_the_items(rt: HostRuntime) -> Result<(), Fail> {
    Ok(check_stores(&rt, rt.alloc(), Check::Exchanges)?)
}

// Returns the maximum number of items that a search visits, over searches for every `step`-th character and
// for the last character.
fn most_visits<S: ParagraphStore<Item>>(store: &S, step: usize) -> usize {
    let mut most = 0;
    let total = store.total_chars();
    for n in 0..total {
        if n % step.max(1) == 0 || n == total - 1 {
            most = most.max(store.find_char(n).visits);
        }
    }
    most
}

// Fills a store with small items.
fn fill<S: ParagraphStore<Item>>(
    rt: &impl Abort,
    alloc: Global,
    store: &mut S,
    count: usize,
) -> Result<(), AllocError> {
    let old = replace_again(rt, store, (0, 0), 0, small_items(alloc, count)?)?;
    drop(old);
    Ok(())
}

// Asserts that a search visits at most 19 of a thousand items in the tree, and up to all of them in the list.
fn check_thousand<S: ParagraphStore<Item>, T: ParagraphStore<Item>>(
    rt: &impl Abort,
    alloc: Global,
    both: &mut Both<S, T>,
) -> Result<(), AllocError> {
    fill(rt, alloc, &mut both.tree, 1_000)?;
    fill(rt, alloc, &mut both.list, 1_000)?;
    assert!(rt; most_visits(&both.tree, 1) <= 19);
    assert!(rt; most_visits(&both.list, 1) == 1_000);
    Ok(())
}

#[test]
fn tree_visits_at_most_19_of_1000_items_and_list_all(rt: HostRuntime) -> Result<(), Fail> {
    Ok(check_stores(&rt, rt.alloc(), Check::Thousand)?)
}

fn check_million<S: ParagraphStore<Item>>(
    rt: &impl Abort,
    alloc: Global,
    store: &mut S,
) -> Result<(), AllocError> {
    fill(rt, alloc, store, 1_000_000)?;
    assert!(rt; store.count() == 1_000_000);
    assert!(rt; most_visits(store, 101) <= 39);
    Ok(())
}

// Also drops a tree of a million items. The drop recurses no deeper than the height of the tree.
#[test]
fn tree_visits_at_most_39_of_a_million_items(rt: HostRuntime) -> Result<(), Fail> {
    Ok(check_stores(&rt, rt.alloc(), Check::Million)?)
}

// The kinds of checks.
#[derive(Clone, Copy)]
enum Check {
    Rows,
    Random,
    Pushes,
    ThreeByTwo,
    Exchanges,
    Thousand,
    Million,
}

fn check_by<S: ParagraphStore<Item>, T: ParagraphStore<Item>>(
    rt: &impl Abort,
    alloc: Global,
    both: &mut Both<S, T>,
    what: Check,
) -> Result<(), AllocError> {
    match what {
        Check::Rows => check_rows(rt, alloc, both),
        Check::Random => replace_at_random(rt, alloc, both),
        Check::Pushes => push_both(rt, alloc, both),
        Check::ThreeByTwo => check_names(rt, alloc, both),
        Check::Exchanges => exchange_both(rt, alloc, both),
        Check::Thousand => check_thousand(rt, alloc, both),
        Check::Million => check_million(rt, alloc, &mut both.tree),
    }
}

// No other function makes or drops stores, since each function that does so is slow to prove.
fn check_stores(rt: &impl Abort, alloc: Global, what: Check) -> Result<(), AllocError> {
    let mut both = Both {
        tree: TreeStore::new(alloc),
        list: VecStore::new(alloc),
    };
    let result = check_by(rt, alloc, &mut both, what);
    drop(both);
    result
}
