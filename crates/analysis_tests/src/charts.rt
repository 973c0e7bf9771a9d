// Charts whose reversible pairs are known over every wiring.
pub(crate) const STEP: &[u8] =
    b"msc step; inst pc, gen, met; pc: out set to gen; gen: in set from pc; pc: out read to met; met: in read from pc; gen: out lvl to pc; pc: in lvl from gen; met: out val to pc; pc: in val from met; endmsc;";

pub(crate) const CROWD: &[u8] =
    b"msc crowd; inst p, q, r; p: out m0 to r; p: out m1 to r; p: out m2 to q; q: in m2 from p; q: out m3 to r; r: in m0 from p; r: in m1 from p; r: in m3 from q; endmsc;";

pub(crate) static CHARTS: [&'static [u8]; 5] = [
    STEP,
    b"msc twin; inst p, q; p: out m0 to q; p: out m1 to q; q: in m0 from p; q: in m1 from p; endmsc;",
    CROWD,
    // receives drawn out of the order of the sends
    b"msc detour; inst p, q, r; p: out m0 to q; p: out m1 to q; q: in m1 from p; q: out m2 to r; r: in m2 from q; r: out m3 to q; q: in m0 from p; q: in m3 from r; endmsc;",
    b"msc empty; inst p; endmsc;",
];
