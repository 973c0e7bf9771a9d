// Texts that are charts; the expected output has what each says.
pub(crate) static ACCEPTED: [&'static [u8]; 8] = [
    b"msc step; inst pc, gen, met;\npc: out set to gen;\ngen: in set from pc;\npc: out read to met;\nmet: in read from pc;\ngen: out lvl to pc;\npc: in lvl from gen;\nmet: out val to pc;\npc: in val from met;\nendmsc;\n",
    b"msc a; inst p; endmsc;",
    // no blank where a mark divides
    b"msc tight;inst p,q;p:out m to q;q:in m from p;endmsc;",
    // every kind of blank
    b"\t\r\n msc\twide\r;\ninst p\t,\r\nq ;p :out\tm\nto\rq; q\n:\tin  m from p ; endmsc\t;\r\n\t ",
    // a chart, an instance and a message may share a name
    b"msc p; inst p, q; p: out p to q; q: in p from p; endmsc;",
    // names of 24 bytes
    b"msc abcdefghijklmnopqrstuvwx; inst Abcdefghijklmnopqrstuv_8, q; q: out z23456789012345678901234 to Abcdefghijklmnopqrstuv_8; Abcdefghijklmnopqrstuv_8: in z23456789012345678901234 from q; endmsc;",
    // case tells names apart, and from reserved words
    b"msc Msc; inst p, P, OUT; p: out To to P; P: in To from p; OUT: out to_ to p; p: in to_ from OUT; endmsc;",
    // receives in another order than sends
    b"msc cross; inst p, q; p: out m0 to q; p: out m1 to q; q: in m1 from p; q: in m0 from p; endmsc;",
];
