//! Test tables: the lines of the seven table files that the tests' characters need. The lines are constants,
//! because tests cannot open files. A character that no line lists has the file's default.
#![tactic(auto)]

/// Lines of DerivedBidiClass.txt: bidirectional classes.
pub const BIDI_CLASS: &[u8] = b"0009;S
000A;B
000B;S
000C;WS
000D;B
0020;WS
0021..0022;ON
0023..0025;ET
0026..002A;ON
002B;ES
002C;CS
002D;ES
002E..002F;CS
0030..0039;EN
003A;CS
003B..0040;ON
0041..005A;L
005B..0060;ON
0061..007A;L
007B..007E;ON
0085;B
00A0;CS
0300..036F;NSM
05D0..05EA;R
0620..064A;AL
0660..0669;AN
2003;WS
200B..200D;BN
200E;L
200F;R
2028;WS
2029;B
202A;LRE
202B;RLE
202C;PDF
202D;LRO
202E;RLO
2066;LRI
2067;RLI
2068;FSI
2069;PDI
2329..232A;ON
3008..3009;ON
";

/// Lines of BidiBrackets.txt: paired brackets.
pub const BIDI_BRACKETS: &[u8] = b"0028; 0029; o
0029; 0028; c
005B; 005D; o
005D; 005B; c
007B; 007D; o
007D; 007B; c
2329; 232A; o
232A; 2329; c
3008; 3009; o
3009; 3008; c
";

/// Lines of BidiMirroring.txt: mirrored characters.
pub const BIDI_MIRRORING: &[u8] = b"0028; 0029
0029; 0028
003C; 003E
003E; 003C
005B; 005D
005D; 005B
007B; 007D
007D; 007B
3008; 3009
3009; 3008
";

/// Lines of LineBreak.txt: line breaking classes.
pub const LINE_BREAK: &[u8] = b"0009;BA
000A;LF
000B..000C;BK
000D;CR
0020;SP
0021;EX
0022;QU
0024;PR
0025;PO
0027;QU
0028;OP
0029;CP
002B;PR
002C;IS
002D;HY
002E;IS
002F;SY
0030..0039;NU
003A..003B;IS
003F;EX
0041..005A;AL
005B;OP
005C;PR
005D;CP
0061..007A;AL
007B;OP
007C;BA
007D;CL
0085;NL
00A0;GL
0300..034E;CM
05D0..05EA;HL
0620..064A;AL
0660..0669;NU
2003;BA
200B;ZW
200C;CM
200D;ZWJ
200E..200F;CM
2014;B2
2028..2029;BK
202A..202E;CM
2060;WJ
2066..2069;CM
3008;OP
3009;CL
4E00..9FFF;ID
1F1E6..1F1FF;RI
";

/// Lines of DerivedGeneralCategory.txt: general categories.
pub const GENERAL_CATEGORY: &[u8] = b"0041..005A;Lu
0061..007A;Ll
0300..036F;Mn
";

/// Lines of EastAsianWidth.txt: East Asian widths.
pub const EAST_ASIAN_WIDTH: &[u8] = b"3008..3009;W
4E00..9FFF;W
";

/// Lines of emoji-data.txt: emoji properties.
pub const EMOJI_DATA: &[u8] = b"1F1E6..1F1FF;Emoji
00A9;Extended_Pictographic
";
