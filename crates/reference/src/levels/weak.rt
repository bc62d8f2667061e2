//! The weak rules (UAX #9, W1 to W7), each as a pass over the types of a sequence.
use ucd::BidiClass;

/// Applies the weak rules in their order to the types of a sequence.
pub fn resolve_weak(types: &mut [BidiClass], sos: BidiClass) {
    w1(types, sos);
    w2(types, sos);
    w3(types);
    w4(types);
    w5(types);
    w6(types);
    w7(types, sos);
}

// W1: an NSM becomes the type of the character before it.
fn w1(types: &mut [BidiClass], sos: BidiClass) {
    let mut before = sos;
    for slot in types.iter_mut() {
        let class = *slot;
        *slot = w1_type(class, before);
        before = unmarked_after(class, before);
    }
}

fn w1_type(class: BidiClass, before: BidiClass) -> BidiClass {
    match class {
        BidiClass::NSM => mark_after(before),
        _ => class,
    }
}

fn mark_after(before: BidiClass) -> BidiClass {
    match before {
        BidiClass::LRI | BidiClass::RLI | BidiClass::FSI | BidiClass::PDI => BidiClass::ON,
        _ => before,
    }
}

// Returns the last type so far that is not NSM: `class`, or `before` if `class` is NSM.
fn unmarked_after(class: BidiClass, before: BidiClass) -> BidiClass {
    match class {
        BidiClass::NSM => before,
        _ => class,
    }
}

// W2: a European number after AL becomes an Arabic number.
fn w2(types: &mut [BidiClass], sos: BidiClass) {
    let mut strong = sos;
    for slot in types.iter_mut() {
        let class = *slot;
        *slot = w2_type(class, strong);
        strong = strong_after(class, strong);
    }
}

fn w2_type(class: BidiClass, strong: BidiClass) -> BidiClass {
    match (class, strong) {
        (BidiClass::EN, BidiClass::AL) => BidiClass::AN,
        _ => class,
    }
}

// Returns the last strong type so far: `class`, or `strong` if `class` is not strong.
fn strong_after(class: BidiClass, strong: BidiClass) -> BidiClass {
    match class {
        BidiClass::L | BidiClass::R | BidiClass::AL => class,
        _ => strong,
    }
}

// W3: AL becomes R.
fn w3(types: &mut [BidiClass]) {
    for slot in types.iter_mut() {
        *slot = w3_type(*slot);
    }
}

fn w3_type(class: BidiClass) -> BidiClass {
    match class {
        BidiClass::AL => BidiClass::R,
        _ => class,
    }
}

// W4: a single ES or CS between two EN becomes EN, and a single CS between two AN becomes AN.
fn w4(types: &mut [BidiClass]) {
    let mut before = BidiClass::ON;
    for at in 0..types.len() {
        let class = types[at];
        let after = type_or(types, at + 1, BidiClass::ON);
        types[at] = w4_type(before, class, after);
        before = class;
    }
}

fn w4_type(before: BidiClass, class: BidiClass, after: BidiClass) -> BidiClass {
    match (before, class, after) {
        (BidiClass::EN, BidiClass::ES | BidiClass::CS, BidiClass::EN) => BidiClass::EN,
        (BidiClass::AN, BidiClass::CS, BidiClass::AN) => BidiClass::AN,
        _ => class,
    }
}

/// Returns the type at an index, or `other` past the end.
pub fn type_or(types: &[BidiClass], at: usize, other: BidiClass) -> BidiClass {
    if at < types.len() { types[at] } else { other }
}

// W5: a run of European terminators next to a European number becomes European numbers.
fn w5(types: &mut [BidiClass]) {
    let mut before = BidiClass::ON;
    // The index after the current run of terminators. This index is found once per run.
    let mut end = 0;
    for at in 0..types.len() {
        let class = types[at];
        if is_terminator(class) {
            if end <= at {
                end = after_terminators(types, at + 1);
            }
            types[at] = w5_type(before, type_or(types, end, BidiClass::ON));
        } else {
            before = class;
        }
    }
}

fn is_terminator(class: BidiClass) -> bool {
    matches!(class, BidiClass::ET)
}

// Returns the first index from `from` on without a terminator, or the length.
fn after_terminators(types: &[BidiClass], from: usize) -> usize {
    for at in from..types.len() {
        if !is_terminator(types[at]) {
            return at;
        }
    }
    types.len()
}

// Returns the type of a terminator between two other types.
fn w5_type(before: BidiClass, after: BidiClass) -> BidiClass {
    match (before, after) {
        (BidiClass::EN, _) | (_, BidiClass::EN) => BidiClass::EN,
        _ => BidiClass::ET,
    }
}

// W6: all other separators and terminators become ON.
fn w6(types: &mut [BidiClass]) {
    for slot in types.iter_mut() {
        *slot = w6_type(*slot);
    }
}

fn w6_type(class: BidiClass) -> BidiClass {
    match class {
        BidiClass::ES | BidiClass::ET | BidiClass::CS => BidiClass::ON,
        _ => class,
    }
}

// W7: a European number after L becomes L.
fn w7(types: &mut [BidiClass], sos: BidiClass) {
    let mut strong = sos;
    for slot in types.iter_mut() {
        let class = *slot;
        *slot = w7_type(class, strong);
        strong = strong_after(class, strong);
    }
}

fn w7_type(class: BidiClass, strong: BidiClass) -> BidiClass {
    match (class, strong) {
        (BidiClass::EN, BidiClass::L) => BidiClass::L,
        _ => class,
    }
}
