//! What a store requires of its items.
ghost use Rattle.std.specs.Prelude.{◌≡◌, ℕ, refl};
ghost use Rattle.store.specs.Exchanging.{raised};

/// An item whose characters, lines, UTF-8 bytes and UTF-16 code units can be counted.
pub trait Measured {
    ghost chars: { Self → ℕ };

    ghost lines: { Self → ℕ };

    ghost bytes: { Self → ℕ };

    ghost utf16: { Self → ℕ };

    fn chars(&self) -> usize
        ensures { result ≡ chars self.now };

    fn lines(&self) -> usize
        ensures { result ≡ lines self.now };

    /// Returns the length in UTF-8 bytes.
    fn bytes(&self) -> usize
        ensures { result ≡ bytes self.now };

    /// Returns the length in UTF-16 code units.
    fn utf16(&self) -> usize
        ensures { result ≡ utf16 self.now };
}

/// An item that can exchange a part of itself for another part.
pub trait Exchange: Measured {
    /// The type of the parts that are exchanged.
    type Part;

    // Whether a part fits an item.
    ghost fits: { Self → Self.Part → Type 0 };

    // The item after an exchange.
    ghost exchanged: { Self → Self.Part → Self };

    // The part that an exchange takes out of an item.
    ghost handed_out: { Self → Self.Part → Self.Part };

    /// Exchanges the item's part for `part`, which must fit.
    fn exchange(&mut self, part: &mut Self::Part)
        requires { fits self.old part.old }
        ensures item { self.new ≡ exchanged self.old part.old }
        ensures part { part.new ≡ handed_out self.old part.old };

    // An exchange does not change the numbers of characters, bytes and code units.
    ghost keeps_chars: { (item : Self) (part : Self.Part) → fits item part
        → Self.chars (exchanged item part) ≡ Self.chars item };

    ghost keeps_bytes: { (item : Self) (part : Self.Part) → fits item part
        → Self.bytes (exchanged item part) ≡ Self.bytes item };

    ghost keeps_utf16: { (item : Self) (part : Self.Part) → fits item part
        → Self.utf16 (exchanged item part) ≡ Self.utf16 item };
}

/// Exchanges parts of items. An implementation may count its work.
pub trait Exchanger<P: Measured> {
    /// The type of the parts that are exchanged.
    type Part;

    // The state that determines which parts fit and what an exchange results in. An exchange does not change
    // it.
    ghost Kind: { Type 0 };

    ghost kind: { Self → Kind };

    // Whether a part fits an item.
    ghost fits: { Kind → P → Self.Part → Type 0 };

    // The item after an exchange.
    ghost exchanged: { Kind → P → Self.Part → P };

    // The part that an exchange takes out of an item.
    ghost handed_out: { Kind → P → Self.Part → Self.Part };

    // The work counted so far, saturating at `u64::MAX`.
    ghost worked: { Self → ℕ };

    // The cost of an exchange.
    ghost cost: { P → Self.Part → ℕ };

    /// Exchanges the item's part for `part`, which must fit.
    fn exchange(&mut self, item: &mut P, part: &mut Self::Part)
        requires { fits (kind self.old) item.old part.old }
        ensures item { item.new ≡ exchanged (kind self.old) item.old part.old }
        ensures part { part.new ≡ handed_out (kind self.old) item.old part.old }
        ensures same { kind self.new ≡ kind self.old }
        ensures worked { worked self.new ≡ raised (worked self.old) (cost item.old part.old) };

    // An exchange does not change the numbers of characters, bytes and code units.
    ghost keeps_chars: { (by : Kind) (item : P) (part : Self.Part) → fits by item part
        → P.chars (exchanged by item part) ≡ P.chars item };

    ghost keeps_bytes: { (by : Kind) (item : P) (part : Self.Part) → fits by item part
        → P.bytes (exchanged by item part) ≡ P.bytes item };

    ghost keeps_utf16: { (by : Kind) (item : P) (part : Self.Part) → fits by item part
        → P.utf16 (exchanged by item part) ≡ P.utf16 item };
}

/// An exchanger that calls the item's own `exchange`.
#[derive(Drop)]
pub(crate) struct ByItem;

impl<P: Exchange> Exchanger<P> for ByItem {
    type Part = P::Part;

    ghost Kind = { Unit {0} };

    ghost kind = { λ by. tt };

    ghost fits = { λ kind. P.fits };

    ghost exchanged = { λ kind. P.exchanged };

    ghost handed_out = { λ kind. P.handed_out };

    ghost worked = { λ by. 0 };

    ghost cost = { λ item part. 0 };

    fn exchange(&mut self, item: &mut P, part: &mut P::Part) {
        item.exchange(part);
    }

    ghost keeps_chars = { λ kind. P.keeps_chars };

    ghost keeps_bytes = { λ kind. P.keeps_bytes };

    ghost keeps_utf16 = { λ kind. P.keeps_utf16 };
}
