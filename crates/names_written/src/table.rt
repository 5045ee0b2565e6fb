// Made by tools/make_names.py from the entries of crates/rules/specs/Names.antt; not to be edited.
// The names that are written for characters, in ranges. Each range is two number tables: the names' bytes one after the other, and where the name of each
// character begins and the last one ends; a character without a name has no bytes.
// A function for each range, as each has a contract of its own, proved by computing; the work of all is `put_named`, and 0 is the length of no bytes.
ghost use Rattle.std.specs.Prelude.{◌≡◌, ◌≤◌, length};
ghost use Rattle.rules.specs.Utf8.{utf8};
ghost use Rattle.rules.specs.Ascii.{name_of};
ghost use Rattle.rules.specs.Browsing.{given};
ghost use Rattle.names_written.specs.Ties.{Puts};

use crate::place;

const FROM_A0_NAMES: [u8; 474] = *b"\
    nbspiexclcentpoundcurrenyenbrvbarsectDotCOPYordflaquonotshyREGmacrdegpmsup2sup3acutemicroparamiddotcedilsup1\
    ordmraquofrac14halffrac34iquestAgraveAacuteAcircAtildeAumlAringAEligCcedilEgraveEacuteEcircEumlIgraveIacute\
    IcircIumlETHNtildeOgraveOacuteOcircOtildeOumltimesOslashUgraveUacuteUcircUumlYacuteTHORNszligagraveaacuteacirc\
    atildeaumlaringaeligccedilegraveeacuteecirceumligraveiacuteicirciumlethntildeograveoacuteocircotildeoumldiv\
    oslashugraveuacuteucircuumlyacutethornyuml";

const FROM_A0_OFFSETS: [u16; 97] = [
    0, 4, 9, 13, 18, 24, 27, 33, 37, 40, 44, 48, 53, 56, 59, 62, 66, 69, 71, 75, 79, 84, 89, 93,
    99, 104, 108, 112, 117, 123, 127, 133, 139, 145, 151, 156, 162, 166, 171, 176, 182, 188, 194,
    199, 203, 209, 215, 220, 224, 227, 233, 239, 245, 250, 256, 260, 265, 271, 277, 283, 288, 292,
    298, 303, 308, 314, 320, 325, 331, 335, 340, 345, 351, 357, 363, 368, 372, 378, 384, 389, 393,
    396, 402, 408, 414, 419, 425, 429, 432, 438, 444, 450, 455, 459, 465, 470, 474,
];

// Copies the name of a character from U+00A0 to U+00FF to the start of `room` and returns its length, 0 if it has none.
pub fn from_a0(code: u32, room: &mut [u8]) -> usize
    requires { (0xA0 ≤ code) × (code ≤ 0xFF) × (20 ≤ length room.old) }
    ensures { Puts (given (name_of (utf8 code))) result room.old room.new × (result ≤ 20) }
{
    place::put_named(code, 0xA0, &FROM_A0_NAMES, &FROM_A0_OFFSETS, room)
}

const FROM_100_NAMES: [u8; 654] = *b"\
    AmacramacrAbreveabreveAogonaogonCacutecacuteCcircccircCdotcdotCcaronccaronDcarondcaronDstrokdstrokEmacremacr\
    EdotedotEogoneogonEcaronecaronGcircgcircGbrevegbreveGdotgdotGcedilHcirchcircHstrokhstrokItildeitildeImacrimacr\
    IogoniogonIdotimathIJligijligJcircjcircKcedilkcedilkgreenLacutelacuteLcedillcedilLcaronlcaronLmidotlmidot\
    LstroklstrokNacutenacuteNcedilncedilNcaronncaronnaposENGengOmacromacrOdblacodblacOEligoeligRacuteracuteRcedil\
    rcedilRcaronrcaronSacutesacuteScircscircScedilscedilScaronscaronTcediltcedilTcarontcaronTstroktstrokUtilde\
    utildeUmacrumacrUbreveubreveUringuringUdblacudblacUogonuogonWcircwcircYcircycircYumlZacutezacuteZdotzdotZcaron\
    zcaron";

const FROM_100_OFFSETS: [u16; 128] = [
    0, 5, 10, 16, 22, 27, 32, 38, 44, 49, 54, 58, 62, 68, 74, 80, 86, 92, 98, 103, 108, 108, 108,
    112, 116, 121, 126, 132, 138, 143, 148, 154, 160, 164, 168, 174, 174, 179, 184, 190, 196, 202,
    208, 213, 218, 218, 218, 223, 228, 232, 237, 242, 247, 252, 257, 263, 269, 275, 281, 287, 293,
    299, 305, 311, 317, 323, 329, 335, 341, 347, 353, 359, 365, 371, 376, 379, 382, 387, 392, 392,
    392, 398, 404, 409, 414, 420, 426, 432, 438, 444, 450, 456, 462, 467, 472, 478, 484, 490, 496,
    502, 508, 514, 520, 526, 532, 538, 544, 549, 554, 560, 566, 571, 576, 582, 588, 593, 598, 603,
    608, 613, 618, 622, 628, 634, 638, 642, 648, 654,
];

// Copies the name of a character from U+0100 to U+017E to the start of `room` and returns its length, 0 if it has none.
pub fn from_100(code: u32, room: &mut [u8]) -> usize
    requires { (0x100 ≤ code) × (code ≤ 0x17E) × (20 ≤ length room.old) }
    ensures { Puts (given (name_of (utf8 code))) result room.old room.new × (result ≤ 20) }
{
    place::put_named(code, 0x100, &FROM_100_NAMES, &FROM_100_OFFSETS, room)
}

const FROM_192_NAMES: [u8; 55] = *b"\
    fnofimpedgacutejmathcircHacekBrevedotringogontildedblac";

const FROM_192_OFFSETS: [u16; 333] = [
    0, 4, 4, 4, 4, 4, 4, 4, 4, 4, 4, 4, 4, 4, 4, 4, 4, 4, 4, 4, 4, 4, 4, 4, 4, 4, 4, 4, 4, 4, 4, 4,
    4, 4, 4, 4, 9, 9, 9, 9, 9, 9, 9, 9, 9, 9, 9, 9, 9, 9, 9, 9, 9, 9, 9, 9, 9, 9, 9, 9, 9, 9, 9, 9,
    9, 9, 9, 9, 9, 9, 9, 9, 9, 9, 9, 9, 9, 9, 9, 9, 9, 9, 9, 9, 9, 9, 9, 9, 9, 9, 9, 9, 9, 9, 9, 9,
    9, 9, 9, 9, 15, 15, 15, 15, 15, 15, 15, 15, 15, 15, 15, 15, 15, 15, 15, 15, 15, 15, 15, 15, 15,
    15, 15, 15, 15, 15, 15, 15, 15, 15, 15, 15, 15, 15, 15, 15, 15, 15, 15, 15, 15, 15, 15, 15, 15,
    15, 15, 15, 15, 15, 15, 15, 15, 15, 15, 15, 15, 15, 15, 15, 15, 15, 15, 15, 15, 15, 20, 20, 20,
    20, 20, 20, 20, 20, 20, 20, 20, 20, 20, 20, 20, 20, 20, 20, 20, 20, 20, 20, 20, 20, 20, 20, 20,
    20, 20, 20, 20, 20, 20, 20, 20, 20, 20, 20, 20, 20, 20, 20, 20, 20, 20, 20, 20, 20, 20, 20, 20,
    20, 20, 20, 20, 20, 20, 20, 20, 20, 20, 20, 20, 20, 20, 20, 20, 20, 20, 20, 20, 20, 20, 20, 20,
    20, 20, 20, 20, 20, 20, 20, 20, 20, 20, 20, 20, 20, 20, 20, 20, 20, 20, 20, 20, 20, 20, 20, 20,
    20, 20, 20, 20, 20, 20, 20, 20, 20, 20, 20, 20, 20, 20, 20, 20, 20, 20, 20, 20, 20, 20, 20, 20,
    20, 20, 20, 20, 20, 20, 20, 20, 20, 20, 20, 20, 20, 20, 20, 20, 20, 20, 20, 20, 24, 29, 29, 29,
    29, 29, 29, 29, 29, 29, 29, 29, 29, 29, 29, 29, 29, 29, 34, 37, 41, 45, 50, 55,
];

// Copies the name of a character from U+0192 to U+02DD to the start of `room` and returns its length, 0 if it has none.
pub fn from_192(code: u32, room: &mut [u8]) -> usize
    requires { (0x192 ≤ code) × (code ≤ 0x2DD) × (20 ≤ length room.old) }
    ensures { Puts (given (name_of (utf8 code))) result room.old room.new × (result ≤ 20) }
{
    place::put_named(code, 0x192, &FROM_192_NAMES, &FROM_192_OFFSETS, room)
}

const FROM_311_NAMES: [u8; 606] = *b"\
    DownBreveAlphaBetaGammaDeltaEpsilonZetaEtaThetaIotaKappaLambdaMuNuXiOmicronPiRhoSigmaTauUpsilonPhiChiPsiohm\
    alphabetagammadeltaepsizetaetathetaiotakappalambdamunuxiomicronpirhosigmafsigmatauupsiphichipsiomegathetavUpsi\
    phivpivGammadgammadkappavrhovepsivbepsiIOcyDJcyGJcyJukcyDScyIukcyYIcyJsercyLJcyNJcyTSHcyKJcyUbrcyDZcyAcyBcyVcy\
    GcyDcyIEcyZHcyZcyIcyJcyKcyLcyMcyNcyOcyPcyRcyScyTcyUcyFcyKHcyTScyCHcySHcySHCHcyHARDcyYcySOFTcyEcyYUcyYAcyacybcy\
    vcygcydcyiecyzhcyzcyicyjcykcylcymcyncyocypcyrcyscytcyucyfcykhcytscychcyshcyshchcyhardcyycysoftcyecyyucyyacy\
    iocydjcygjcyjukcydscyiukcyyicyjsercyljcynjcytshcykjcyubrcydzcy";

const FROM_311_OFFSETS: [u16; 336] = [
    0, 9, 9, 9, 9, 9, 9, 9, 9, 9, 9, 9, 9, 9, 9, 9, 9, 9, 9, 9, 9, 9, 9, 9, 9, 9, 9, 9, 9, 9, 9, 9,
    9, 9, 9, 9, 9, 9, 9, 9, 9, 9, 9, 9, 9, 9, 9, 9, 9, 9, 9, 9, 9, 9, 9, 9, 9, 9, 9, 9, 9, 9, 9, 9,
    9, 9, 9, 9, 9, 9, 9, 9, 9, 9, 9, 9, 9, 9, 9, 9, 9, 9, 9, 9, 9, 9, 9, 9, 9, 9, 9, 9, 9, 9, 9, 9,
    9, 9, 9, 9, 9, 9, 9, 9, 9, 9, 9, 9, 9, 9, 9, 9, 9, 9, 9, 9, 9, 9, 9, 9, 9, 9, 9, 9, 9, 9, 9, 9,
    9, 14, 18, 23, 28, 35, 39, 42, 47, 51, 56, 62, 64, 66, 68, 75, 77, 80, 80, 85, 88, 95, 98, 101,
    104, 107, 107, 107, 107, 107, 107, 107, 107, 112, 116, 121, 126, 130, 134, 137, 142, 146, 151,
    157, 159, 161, 163, 170, 172, 175, 181, 186, 189, 193, 196, 199, 202, 207, 207, 207, 207, 207,
    207, 207, 207, 213, 217, 217, 217, 221, 224, 224, 224, 224, 224, 224, 230, 236, 236, 236, 236,
    236, 236, 236, 236, 236, 236, 236, 236, 236, 236, 236, 236, 236, 236, 236, 242, 246, 246, 246,
    246, 251, 256, 256, 256, 256, 256, 256, 256, 256, 256, 256, 256, 260, 264, 268, 273, 277, 282,
    286, 292, 296, 300, 305, 309, 309, 314, 318, 321, 324, 327, 330, 333, 337, 341, 344, 347, 350,
    353, 356, 359, 362, 365, 368, 371, 374, 377, 380, 383, 387, 391, 395, 399, 405, 411, 414, 420,
    423, 427, 431, 434, 437, 440, 443, 446, 450, 454, 457, 460, 463, 466, 469, 472, 475, 478, 481,
    484, 487, 490, 493, 496, 500, 504, 508, 512, 518, 524, 527, 533, 536, 540, 544, 544, 548, 552,
    556, 561, 565, 570, 574, 580, 584, 588, 593, 597, 597, 602, 606,
];

// Copies the name of a character from U+0311 to U+045F to the start of `room` and returns its length, 0 if it has none.
pub fn from_311(code: u32, room: &mut [u8]) -> usize
    requires { (0x311 ≤ code) × (code ≤ 0x45F) × (20 ≤ length room.old) }
    ensures { Puts (given (name_of (utf8 code))) result room.old room.new × (result ≤ 20) }
{
    place::put_named(code, 0x311, &FROM_311_NAMES, &FROM_311_OFFSETS, room)
}

const FROM_2002_NAMES: [u8; 265] = *b"\
    enspemspemsp13emsp14numsppuncspthinsphairspZeroWidthSpacezwnjzwjlrmrlmdashndashmdashhorbarVertlsquorsquosbquo\
    ldquordquobdquodaggerDaggerbullnldrmldrpermilpertenkprimePrimetprimebprimelsaquorsaquoolinecarethybullfrasl\
    bsemiqprimeMediumSpaceNoBreakafiticeurotdotDotDot";

const FROM_2002_OFFSETS: [u16; 220] = [
    0, 4, 8, 14, 20, 20, 25, 31, 37, 43, 57, 61, 64, 67, 70, 74, 74, 74, 79, 84, 90, 94, 94, 99,
    104, 109, 109, 114, 119, 124, 124, 130, 136, 140, 140, 140, 144, 148, 148, 148, 148, 148, 148,
    148, 148, 148, 148, 154, 161, 166, 171, 177, 183, 183, 183, 183, 189, 195, 195, 195, 195, 200,
    200, 200, 205, 205, 211, 216, 216, 216, 216, 216, 216, 216, 216, 216, 216, 216, 221, 221, 221,
    221, 221, 221, 221, 221, 227, 227, 227, 227, 227, 227, 227, 227, 238, 245, 247, 249, 251, 251,
    251, 251, 251, 251, 251, 251, 251, 251, 251, 251, 251, 251, 251, 251, 251, 251, 251, 251, 251,
    251, 251, 251, 251, 251, 251, 251, 251, 251, 251, 251, 251, 251, 251, 251, 251, 251, 251, 251,
    251, 251, 251, 251, 251, 251, 251, 251, 251, 251, 251, 251, 251, 251, 251, 251, 251, 251, 251,
    251, 251, 251, 251, 251, 251, 251, 251, 251, 251, 251, 251, 251, 251, 255, 255, 255, 255, 255,
    255, 255, 255, 255, 255, 255, 255, 255, 255, 255, 255, 255, 255, 255, 255, 255, 255, 255, 255,
    255, 255, 255, 255, 255, 255, 255, 255, 255, 255, 255, 255, 255, 255, 255, 255, 255, 255, 255,
    255, 255, 255, 255, 259, 265,
];

// Copies the name of a character from U+2002 to U+20DC to the start of `room` and returns its length, 0 if it has none.
pub fn from_2002(code: u32, room: &mut [u8]) -> usize
    requires { (0x2002 ≤ code) × (code ≤ 0x20DC) × (20 ≤ length room.old) }
    ensures { Puts (given (name_of (utf8 code))) result room.old room.new × (result ≤ 20) }
{
    place::put_named(code, 0x2002, &FROM_2002_NAMES, &FROM_2002_OFFSETS, room)
}

const FROM_2102_NAMES: [u8; 234] = *b"\
    CopfincaregscrHscrHfrHopfplanckhhbarIscrImLscrellNopfnumerocopysrwpPopfQopfRscrReRopfrxTRADEZopfmhoZfriiota\
    BscrCfrescrEscrFscrMscroscralephbethgimeldalethDDddeeiifrac13frac23frac15frac25frac35frac45frac16frac56frac18\
    frac38frac58frac78";

const FROM_2102_OFFSETS: [u16; 94] = [
    0, 4, 4, 4, 10, 10, 10, 10, 10, 14, 18, 21, 25, 32, 36, 40, 42, 46, 49, 49, 53, 59, 65, 67, 71,
    75, 79, 81, 85, 87, 87, 87, 87, 92, 92, 96, 96, 96, 99, 102, 107, 107, 107, 111, 114, 114, 118,
    122, 126, 126, 130, 134, 139, 143, 148, 154, 154, 154, 154, 154, 154, 154, 154, 154, 154, 154,
    154, 154, 156, 158, 160, 162, 162, 162, 162, 162, 162, 162, 162, 162, 162, 162, 168, 174, 180,
    186, 192, 198, 204, 210, 216, 222, 228, 234,
];

// Copies the name of a character from U+2102 to U+215E to the start of `room` and returns its length, 0 if it has none.
pub fn from_2102(code: u32, room: &mut [u8]) -> usize
    requires { (0x2102 ≤ code) × (code ≤ 0x215E) × (20 ≤ length room.old) }
    ensures { Puts (given (name_of (utf8 code))) result room.old room.new × (result ≤ 20) }
{
    place::put_named(code, 0x2102, &FROM_2102_NAMES, &FROM_2102_OFFSETS, room)
}

const FROM_2190_NAMES: [u8; 383] = *b"\
    larruarrrarrdarrharrvarrnwarrnearrsearrswarrnlarrnrarrrarrwLarrUarrRarrDarrlarrtlrarrtlmapstoleftmapstoupmap\
    mapstodownlarrhkrarrhklarrlprarrlpharrwnharrLshRshldshrdshcrarrcularrcurarrolarrorarrlharulharduharruharlrharu\
    rharddharrdharlrlarrudarrlrarrllarruuarrrrarrddarrlrharrlharnlArrnhArrnrArrlArruArrrArrdArriffvArrnwArrneArr\
    seArrswArrlAarrrAarrzigrarrlarrbrarrbduarrloarrroarrhoarr";

const FROM_2190_OFFSETS: [u16; 113] = [
    0, 4, 8, 12, 16, 20, 24, 29, 34, 39, 44, 49, 54, 54, 59, 63, 67, 71, 75, 81, 87, 97, 105, 108,
    118, 118, 124, 130, 136, 142, 147, 152, 152, 155, 158, 162, 166, 166, 171, 177, 183, 183, 183,
    188, 193, 198, 203, 208, 213, 218, 223, 228, 233, 238, 243, 248, 253, 258, 263, 268, 273, 278,
    283, 288, 293, 297, 301, 305, 309, 312, 316, 321, 326, 331, 336, 341, 346, 346, 353, 353, 353,
    353, 353, 353, 353, 358, 363, 363, 363, 363, 363, 363, 363, 363, 363, 363, 363, 363, 363, 363,
    363, 363, 368, 368, 368, 368, 368, 368, 368, 368, 373, 378, 383,
];

// Copies the name of a character from U+2190 to U+21FF to the start of `room` and returns its length, 0 if it has none.
pub fn from_2190(code: u32, room: &mut [u8]) -> usize
    requires { (0x2190 ≤ code) × (code ≤ 0x21FF) × (20 ≤ length room.old) }
    ensures { Puts (given (name_of (utf8 code))) result room.old room.new × (result ≤ 20) }
{
    place::put_named(code, 0x2190, &FROM_2190_NAMES, &FROM_2190_OFFSETS, room)
}

const FROM_2200_NAMES: [u8; 483] = *b"\
    ForAllcomppartexistnexistemptyDelinnotinninotniprodcoprodSumminusmpplusdosetmnlowastcompfnSqrtpropinfinangrt\
    angangmsdangsphmidnmidparnparandorcapcupintInttintointConintCconintcwintcwconintawconintthere4becausratioColon\
    minusdmDDothomthtsimbsimacacdwrnsimesimsimensimecongsimnencongapnapapeapidbcongCupCapbumpbumpedoteqeDotefDot\
    erDotAssignecolonecircirewedgeqveeeqtrieequestneequivnequivlegelEgElnEgnELtGttwixtNotCupCapnltngtnlengelsim\
    gsimnlsimngsimlgglntlgntglprscprcuesccueprsimscsim";

const FROM_2200_OFFSETS: [u16; 129] = [
    0, 6, 10, 14, 19, 25, 30, 30, 33, 35, 40, 40, 42, 47, 47, 47, 51, 57, 60, 65, 67, 73, 73, 78,
    84, 90, 90, 94, 94, 94, 98, 103, 108, 111, 117, 123, 126, 130, 133, 137, 140, 142, 145, 148,
    151, 154, 158, 162, 168, 175, 180, 188, 196, 202, 208, 213, 218, 224, 224, 229, 235, 238, 242,
    244, 247, 249, 253, 257, 261, 266, 270, 275, 280, 282, 285, 288, 292, 297, 303, 307, 312, 317,
    321, 326, 331, 337, 343, 347, 351, 351, 357, 362, 362, 366, 366, 366, 372, 374, 379, 385, 385,
    387, 389, 391, 393, 396, 399, 401, 403, 408, 417, 420, 423, 426, 429, 433, 437, 442, 447, 449,
    451, 455, 459, 461, 463, 468, 473, 478, 483,
];

// Copies the name of a character from U+2200 to U+227F to the start of `room` and returns its length, 0 if it has none.
pub fn from_2200(code: u32, room: &mut [u8]) -> usize
    requires { (0x2200 ≤ code) × (code ≤ 0x227F) × (20 ≤ length room.old) }
    ensures { Puts (given (name_of (utf8 code))) result room.old room.new × (result ≤ 20) }
{
    place::put_named(code, 0x2200, &FROM_2200_NAMES, &FROM_2200_OFFSETS, room)
}

const FROM_2280_NAMES: [u8; 582] = *b"\
    nprnscsubsupnsubnsupsubesupensubensupesubnesupnecupdotuplussqsubsqsupsqsubesqsupesqcapsqcupoplusominusotimes\
    osolodotociroastodashplusbminusbtimesbsdotbvdashdashvtopbotmodelsvDashVdashVvdashVDashnvdashnvDashnVdashnVDash\
    prurelvltrivrtriltriertrieorigofimofmumapherconintcalveebarbarveeangrtvblrtriWedgeVeexcapxcupdiamsdotStar\
    divonxbowtieltimesrtimeslthreerthreebsimecuveecuwedSubSupCapCupforkeparltdotgtdotLlGgleggelcueprcuescnprcue\
    nsccuensqsubensqsupelnsimgnsimprnsimscnsimnltrinrtrinltrienrtrievellipctdotutdotdtdotdisinisinsvisinsisindot\
    notinvcnotinvbisinEnisdxnisnisnotnivcnotnivb";

const FROM_2280_OFFSETS: [u16; 128] = [
    0, 3, 6, 9, 12, 16, 20, 24, 28, 33, 38, 43, 48, 48, 54, 59, 64, 69, 75, 81, 86, 91, 96, 102,
    108, 112, 116, 120, 124, 124, 129, 134, 140, 146, 151, 156, 161, 164, 167, 167, 173, 178, 183,
    189, 194, 200, 206, 212, 218, 224, 224, 229, 234, 239, 244, 250, 254, 259, 265, 271, 277, 277,
    283, 290, 295, 300, 303, 307, 311, 315, 319, 323, 329, 335, 341, 347, 353, 359, 364, 369, 374,
    377, 380, 383, 386, 390, 394, 399, 404, 406, 408, 411, 414, 414, 414, 419, 424, 430, 436, 443,
    450, 450, 450, 455, 460, 466, 472, 477, 482, 488, 494, 500, 505, 510, 515, 520, 526, 531, 538,
    545, 552, 552, 557, 561, 565, 568, 575, 582,
];

// Copies the name of a character from U+2280 to U+22FE to the start of `room` and returns its length, 0 if it has none.
pub fn from_2280(code: u32, room: &mut [u8]) -> usize
    requires { (0x2280 ≤ code) × (code ≤ 0x22FE) × (20 ≤ length room.old) }
    ensures { Puts (given (name_of (utf8 code))) result room.old room.new × (result ≤ 20) }
{
    place::put_named(code, 0x2280, &FROM_2280_NAMES, &FROM_2280_OFFSETS, room)
}

const FROM_2305_NAMES: [u8; 263] = *b"\
    barwedBarwedlceilrceillfloorrfloordrcropdlcropurcropulcropbnotproflineprofsurftelrectargetulcornurcorndlcorn\
    drcornfrownsmilecylctyprofalartopbotovbarsolbarangzarrlmoustrmousttbrkbbrkbbrktbrkOverParenthesis\
    UnderParenthesisOverBraceUnderBracetrpeziumelintersblankoS";

const FROM_2305_OFFSETS: [u16; 453] = [
    0, 6, 12, 12, 17, 22, 28, 34, 40, 46, 52, 58, 62, 62, 70, 78, 78, 84, 90, 90, 90, 90, 90, 90,
    96, 102, 108, 114, 114, 114, 119, 124, 124, 124, 124, 124, 124, 124, 124, 124, 124, 130, 138,
    138, 138, 138, 138, 138, 138, 138, 144, 144, 144, 144, 144, 144, 144, 149, 149, 155, 155, 155,
    155, 155, 155, 155, 155, 155, 155, 155, 155, 155, 155, 155, 155, 155, 155, 155, 155, 155, 155,
    155, 155, 155, 155, 155, 155, 155, 155, 155, 155, 155, 155, 155, 155, 155, 155, 155, 155, 155,
    155, 155, 155, 155, 155, 155, 155, 155, 155, 155, 155, 155, 155, 155, 155, 155, 155, 155, 155,
    155, 162, 162, 162, 162, 162, 162, 162, 162, 162, 162, 162, 162, 162, 162, 162, 162, 162, 162,
    162, 162, 162, 162, 162, 162, 162, 162, 162, 162, 162, 162, 162, 162, 162, 162, 162, 162, 162,
    162, 162, 162, 162, 162, 162, 162, 162, 162, 162, 162, 162, 162, 162, 162, 168, 174, 174, 174,
    178, 182, 190, 190, 190, 190, 190, 190, 190, 190, 190, 190, 190, 190, 190, 190, 190, 190, 190,
    190, 190, 190, 190, 190, 190, 190, 190, 190, 190, 190, 190, 190, 190, 190, 190, 190, 190, 190,
    190, 190, 205, 221, 230, 240, 240, 240, 248, 248, 248, 248, 248, 256, 256, 256, 256, 256, 256,
    256, 256, 256, 256, 256, 256, 256, 256, 256, 256, 256, 256, 256, 256, 256, 256, 256, 256, 256,
    256, 256, 256, 256, 256, 256, 256, 256, 256, 256, 256, 256, 256, 256, 256, 256, 256, 256, 256,
    256, 256, 256, 256, 256, 256, 256, 256, 256, 256, 256, 256, 256, 256, 256, 256, 261, 261, 261,
    261, 261, 261, 261, 261, 261, 261, 261, 261, 261, 261, 261, 261, 261, 261, 261, 261, 261, 261,
    261, 261, 261, 261, 261, 261, 261, 261, 261, 261, 261, 261, 261, 261, 261, 261, 261, 261, 261,
    261, 261, 261, 261, 261, 261, 261, 261, 261, 261, 261, 261, 261, 261, 261, 261, 261, 261, 261,
    261, 261, 261, 261, 261, 261, 261, 261, 261, 261, 261, 261, 261, 261, 261, 261, 261, 261, 261,
    261, 261, 261, 261, 261, 261, 261, 261, 261, 261, 261, 261, 261, 261, 261, 261, 261, 261, 261,
    261, 261, 261, 261, 261, 261, 261, 261, 261, 261, 261, 261, 261, 261, 261, 261, 261, 261, 261,
    261, 261, 261, 261, 261, 261, 261, 261, 261, 261, 261, 261, 261, 261, 261, 261, 261, 261, 261,
    261, 261, 261, 261, 261, 261, 261, 261, 261, 261, 261, 261, 261, 261, 261, 261, 261, 261, 261,
    261, 261, 261, 261, 261, 261, 261, 261, 261, 261, 263,
];

// Copies the name of a character from U+2305 to U+24C8 to the start of `room` and returns its length, 0 if it has none.
pub fn from_2305(code: u32, room: &mut [u8]) -> usize
    requires { (0x2305 ≤ code) × (code ≤ 0x24C8) × (20 ≤ length room.old) }
    ensures { Puts (given (name_of (utf8 code))) result room.old room.new × (result ≤ 20) }
{
    place::put_named(code, 0x2305, &FROM_2305_NAMES, &FROM_2305_OFFSETS, room)
}

const FROM_2500_NAMES: [u8; 379] = *b"\
    boxhboxvboxdrboxdlboxurboxulboxvrboxvlboxhdboxhuboxvhboxHboxVboxdRboxDrboxDRboxdLboxDlboxDLboxuRboxUrboxUR\
    boxuLboxUlboxULboxvRboxVrboxVRboxvLboxVlboxVLboxHdboxhDboxHDboxHuboxhUboxHUboxvHboxVhboxVHuhblklhblkblockblk14\
    blk12blk34squsqufEmptyVerySmallSquarerectmarkerfltnsxutriutrifutrirtrifrtrixdtridtrifdtriltrifltrilozcirtridot\
    xcircultriurtrilltriEmptySmallSquareFilledSmallSquare";

const FROM_2500_OFFSETS: [u16; 254] = [
    0, 4, 4, 8, 8, 8, 8, 8, 8, 8, 8, 8, 8, 13, 13, 13, 13, 18, 18, 18, 18, 23, 23, 23, 23, 28, 28,
    28, 28, 33, 33, 33, 33, 33, 33, 33, 33, 38, 38, 38, 38, 38, 38, 38, 38, 43, 43, 43, 43, 43, 43,
    43, 43, 48, 48, 48, 48, 48, 48, 48, 48, 53, 53, 53, 53, 53, 53, 53, 53, 53, 53, 53, 53, 53, 53,
    53, 53, 53, 53, 53, 53, 57, 61, 66, 71, 76, 81, 86, 91, 96, 101, 106, 111, 116, 121, 126, 131,
    136, 141, 146, 151, 156, 161, 166, 171, 176, 181, 186, 191, 196, 196, 196, 196, 196, 196, 196,
    196, 196, 196, 196, 196, 196, 196, 196, 196, 196, 196, 196, 196, 201, 201, 201, 201, 206, 206,
    206, 206, 211, 211, 211, 211, 211, 211, 211, 211, 211, 216, 221, 226, 226, 226, 226, 226, 226,
    226, 226, 226, 226, 226, 226, 226, 226, 229, 229, 229, 229, 229, 229, 229, 229, 229, 233, 253,
    253, 257, 263, 263, 263, 268, 268, 273, 278, 282, 282, 282, 287, 291, 291, 291, 291, 296, 301,
    305, 305, 305, 310, 314, 314, 314, 314, 314, 314, 314, 317, 320, 320, 320, 320, 320, 320, 320,
    320, 320, 320, 320, 320, 320, 320, 320, 320, 320, 320, 320, 320, 320, 320, 320, 320, 320, 320,
    320, 320, 320, 320, 320, 320, 320, 326, 326, 326, 331, 331, 331, 331, 331, 331, 331, 331, 331,
    336, 341, 346, 362, 379,
];

// Copies the name of a character from U+2500 to U+25FC to the start of `room` and returns its length, 0 if it has none.
pub fn from_2500(code: u32, room: &mut [u8]) -> usize
    requires { (0x2500 ≤ code) × (code ≤ 0x25FC) × (20 ≤ length room.old) }
    ensures { Puts (given (name_of (utf8 code))) result room.old room.new × (result ≤ 20) }
{
    place::put_named(code, 0x2500, &FROM_2500_NAMES, &FROM_2500_OFFSETS, room)
}

const FROM_2605_NAMES: [u8; 202] = *b"\
    starfstarphonefemalemalespadesclubsheartsdiamssungflatnatursharpcheckcrossmaltsextVerticalSeparatorlbbrkrbbrk\
    bsolhsubsuphsollobrkrobrklangrangLangRangloangroangxlarrxrarrxharrxlArrxrArrxhArrxmapdzigrarr";

const FROM_2605_OFFSETS: [u16; 508] = [
    0, 5, 9, 9, 9, 9, 9, 9, 9, 9, 14, 14, 14, 14, 14, 14, 14, 14, 14, 14, 14, 14, 14, 14, 14, 14,
    14, 14, 14, 14, 14, 14, 14, 14, 14, 14, 14, 14, 14, 14, 14, 14, 14, 14, 14, 14, 14, 14, 14, 14,
    14, 14, 14, 14, 14, 14, 14, 14, 14, 14, 20, 20, 24, 24, 24, 24, 24, 24, 24, 24, 24, 24, 24, 24,
    24, 24, 24, 24, 24, 24, 24, 24, 24, 24, 24, 24, 24, 24, 24, 24, 24, 24, 30, 30, 30, 35, 35, 41,
    46, 46, 46, 46, 50, 50, 50, 54, 59, 64, 64, 64, 64, 64, 64, 64, 64, 64, 64, 64, 64, 64, 64, 64,
    64, 64, 64, 64, 64, 64, 64, 64, 64, 64, 64, 64, 64, 64, 64, 64, 64, 64, 64, 64, 64, 64, 64, 64,
    64, 64, 64, 64, 64, 64, 64, 64, 64, 64, 64, 64, 64, 64, 64, 64, 64, 64, 64, 64, 64, 64, 64, 64,
    64, 64, 64, 64, 64, 64, 64, 64, 64, 64, 64, 64, 64, 64, 64, 64, 64, 64, 64, 64, 64, 64, 64, 64,
    64, 64, 64, 64, 64, 64, 64, 64, 64, 64, 64, 64, 64, 64, 64, 64, 64, 64, 64, 64, 64, 64, 64, 64,
    64, 64, 64, 64, 64, 64, 64, 64, 64, 64, 64, 64, 64, 64, 64, 64, 64, 64, 64, 64, 64, 64, 64, 64,
    64, 64, 64, 64, 64, 64, 64, 64, 64, 64, 64, 64, 64, 64, 64, 64, 64, 64, 64, 64, 64, 64, 64, 64,
    64, 64, 64, 64, 64, 69, 69, 69, 69, 74, 74, 74, 74, 74, 74, 74, 74, 74, 78, 78, 78, 78, 78, 78,
    78, 78, 78, 78, 78, 78, 78, 78, 78, 78, 78, 78, 78, 78, 78, 78, 82, 82, 82, 82, 82, 82, 82, 82,
    82, 82, 82, 82, 82, 82, 82, 82, 82, 82, 82, 82, 82, 82, 82, 82, 82, 82, 82, 82, 82, 82, 82, 82,
    82, 82, 99, 99, 99, 99, 99, 99, 99, 99, 99, 99, 99, 99, 99, 99, 99, 99, 99, 99, 99, 99, 99, 99,
    99, 99, 99, 99, 104, 109, 109, 109, 109, 109, 109, 109, 109, 109, 109, 109, 109, 109, 109, 109,
    109, 109, 109, 109, 109, 109, 109, 109, 109, 109, 109, 109, 109, 109, 109, 109, 109, 109, 109,
    109, 109, 109, 109, 109, 109, 109, 109, 109, 109, 109, 109, 109, 109, 109, 109, 109, 109, 109,
    109, 109, 109, 109, 109, 109, 109, 109, 109, 109, 109, 109, 109, 109, 109, 109, 109, 109, 109,
    109, 109, 109, 109, 109, 109, 109, 109, 109, 109, 109, 109, 109, 117, 124, 124, 124, 124, 124,
    124, 124, 124, 124, 124, 124, 124, 124, 124, 124, 124, 124, 124, 124, 124, 124, 124, 124, 124,
    124, 124, 124, 124, 124, 129, 134, 138, 142, 146, 150, 155, 160, 160, 160, 160, 160, 160, 160,
    160, 165, 170, 175, 180, 185, 190, 190, 194, 194, 194, 202,
];

// Copies the name of a character from U+2605 to U+27FF to the start of `room` and returns its length, 0 if it has none.
pub fn from_2605(code: u32, room: &mut [u8]) -> usize
    requires { (0x2605 ≤ code) × (code ≤ 0x27FF) × (20 ≤ length room.old) }
    ensures { Puts (given (name_of (utf8 code))) result room.old room.new × (result ≤ 20) }
{
    place::put_named(code, 0x2605, &FROM_2605_NAMES, &FROM_2605_OFFSETS, room)
}

const FROM_2902_NAMES: [u8; 755] = *b"\
    nvlArrnvrArrnvHarrMaplbarrrbarrlBarrrBarrRBarrDDotrahdUpArrowBarDownArrowBarRarrtllatailrataillAtailrAtail\
    larrfsrarrfslarrbfsrarrbfsnwarhknearhksearhkswarhknwneartoeatosaswnwarrarrccudarrrldcardcacudarrllarrplcurarrm\
    cularrprarrplharrcirUarrocirlurdsharldrusharLeftRightVectorRightUpDownVectorDownLeftRightVector\
    LeftUpDownVectorLeftVectorBarRightVectorBarRightUpVectorBarRightDownVectorBarDownLeftVectorBar\
    DownRightVectorBarLeftUpVectorBarLeftDownVectorBarLeftTeeVectorRightTeeVectorRightUpTeeVector\
    RightDownTeeVectorDownLeftTeeVectorDownRightTeeVectorLeftUpTeeVectorLeftDownTeeVectorlHaruHarrHardHarluruhar\
    ldrdharruluharrdldharlharulllhardrharullrhardudharduharRoundImplieserarrsimrarrlarrsimrarrsimrarrapltlarr\
    gtrarrsubrarrsuplarrlfishtrfishtufishtdfisht";

const FROM_2902_OFFSETS: [u16; 127] = [
    0, 6, 12, 18, 21, 21, 21, 21, 21, 21, 21, 26, 31, 36, 41, 46, 54, 64, 76, 76, 76, 82, 82, 82,
    88, 94, 100, 106, 112, 118, 125, 132, 132, 132, 138, 144, 150, 156, 162, 166, 170, 176, 176,
    176, 176, 176, 176, 176, 176, 176, 181, 181, 188, 192, 196, 203, 209, 209, 209, 216, 223, 223,
    223, 223, 223, 223, 223, 223, 229, 229, 229, 236, 244, 252, 260, 260, 260, 275, 292, 311, 327,
    340, 354, 370, 388, 405, 423, 438, 455, 468, 482, 498, 516, 533, 551, 566, 583, 587, 591, 595,
    599, 606, 613, 620, 627, 633, 639, 645, 651, 656, 661, 673, 678, 685, 692, 699, 705, 711, 711,
    717, 724, 724, 731, 737, 743, 749, 755,
];

// Copies the name of a character from U+2902 to U+297F to the start of `room` and returns its length, 0 if it has none.
pub fn from_2902(code: u32, room: &mut [u8]) -> usize
    requires { (0x2902 ≤ code) × (code ≤ 0x297F) × (20 ≤ length room.old) }
    ensures { Puts (given (name_of (utf8 code))) result room.old room.new × (result ≤ 20) }
{
    place::put_named(code, 0x2902, &FROM_2902_NAMES, &FROM_2902_OFFSETS, room)
}

const FROM_2985_NAMES: [u8; 406] = *b"\
    loparroparlbrkerbrkelbrkslurbrksldlbrksldrbrkslulangdrangdlparltrpargtgtlParltrParvzigzagvangrtangrtvbdange\
    rangedwangleuwangleangmsdaaangmsdabangmsdacangmsdadangmsdaeangmsdafangmsdagangmsdahbemptyvdemptyvcemptyv\
    raemptyvlaemptyvohbaromidoparoperpolcrossodsoldolcirofciroltogtcirscircirEsolbbsolbboxboxtrisbrtriltri\
    LeftTriangleBarRightTriangleBariinfininfintienvinfineparslsmeparsleqvparsllozfRuleDelayeddsol";

const FROM_2985_OFFSETS: [u16; 115] = [
    0, 5, 10, 10, 10, 10, 10, 15, 20, 27, 34, 41, 48, 53, 58, 64, 70, 76, 82, 82, 82, 82, 89, 89,
    95, 103, 103, 103, 103, 103, 103, 103, 107, 112, 119, 126, 134, 142, 150, 158, 166, 174, 182,
    190, 197, 204, 211, 219, 227, 232, 236, 240, 240, 245, 245, 252, 258, 258, 263, 268, 271, 274,
    281, 285, 289, 294, 294, 294, 294, 300, 300, 300, 300, 305, 313, 328, 344, 344, 344, 344, 344,
    344, 344, 344, 344, 344, 344, 344, 350, 358, 365, 365, 365, 365, 365, 371, 379, 387, 387, 387,
    387, 387, 387, 391, 391, 391, 391, 391, 391, 391, 391, 391, 402, 402, 406,
];

// Copies the name of a character from U+2985 to U+29F6 to the start of `room` and returns its length, 0 if it has none.
pub fn from_2985(code: u32, room: &mut [u8]) -> usize
    requires { (0x2985 ≤ code) × (code ≤ 0x29F6) × (20 ≤ length room.old) }
    ensures { Puts (given (name_of (utf8 code))) result room.old room.new × (result ≤ 20) }
{
    place::put_named(code, 0x2985, &FROM_2985_NAMES, &FROM_2985_OFFSETS, room)
}

const FROM_2A00_NAMES: [u8; 494] = *b"\
    xodotxoplusxotimexuplusxsqcupqintfpartintcirfnintawintrppolintscpolintnpolintpointintquatintintlarhkpluscir\
    plusacirsimplusplusduplussimplustwomcommaminusduloplusroplusCrosstimesdtimesbarsmashplotimesrotimesotimesas\
    Otimesodivtriplustriminustritimeiprodamalgcapdotncupncapcapandcuporcupcapcapcupcupbrcapcapbrcupcupcupcapcap\
    ccupsccapsccupssmAndOrandandorororslopeandslopeandvorvanddordwedbarsdotesimdotcongdoteasterapacirapEepluspluse\
    EsimColoneEqualeDDotequivDDltcirgtcirltquestgtquestlesgeslesdot";

const FROM_2A00_OFFSETS: [u16; 129] = [
    0, 5, 11, 17, 17, 23, 23, 29, 29, 29, 29, 29, 29, 33, 41, 41, 41, 49, 54, 62, 70, 77, 85, 92,
    100, 100, 100, 100, 100, 100, 100, 100, 100, 100, 100, 107, 115, 122, 128, 135, 142, 142, 148,
    155, 155, 155, 161, 167, 172, 178, 186, 186, 192, 199, 206, 214, 220, 224, 231, 239, 246, 251,
    251, 251, 256, 262, 262, 266, 270, 276, 281, 287, 293, 301, 309, 315, 321, 326, 331, 331, 331,
    338, 338, 338, 341, 343, 349, 353, 360, 368, 368, 372, 375, 379, 382, 382, 388, 388, 388, 388,
    388, 388, 388, 393, 393, 393, 393, 399, 399, 399, 406, 412, 418, 421, 426, 431, 435, 441, 446,
    446, 451, 458, 463, 468, 475, 482, 485, 488, 494,
];

// Copies the name of a character from U+2A00 to U+2A7F to the start of `room` and returns its length, 0 if it has none.
pub fn from_2a00(code: u32, room: &mut [u8]) -> usize
    requires { (0x2A00 ≤ code) × (code ≤ 0x2A7F) × (20 ≤ length room.old) }
    ensures { Puts (given (name_of (utf8 code))) result room.old room.new × (result ≤ 20) }
{
    place::put_named(code, 0x2A00, &FROM_2A00_NAMES, &FROM_2A00_OFFSETS, room)
}

const FROM_2A80_NAMES: [u8; 477] = *b"\
    gesdotlesdotogesdotolesdotorgesdotollapgaplnegnelnapgnaplEggEllsimegsimelsimggsimllgEglElesgesgesleselsegs\
    elsdotegsdotelegsimlsimgsimlEsimgELessLessGreaterGreatergljglaltccgtcclesccgesccsmtlatsmtelatebumpEpresceprE\
    scEprnEscnEprapscapprnapscnapPrScsubdotsupdotsubplussupplussubmultsupmultsubedotsupedotsubEsupEsubsimsupsim\
    subnEsupnEcsubcsupcsubecsupesubsupsupsubsubsubsupsupsuphsubsupdsubforkvtopforkmlcpDashvVdashlBarvvBarvBarvVbar\
    NotbNotrnmidcirmidmidcirtopcirnhparparsimparsl";

const FROM_2A80_OFFSETS: [u16; 127] = [
    0, 6, 13, 20, 28, 36, 39, 42, 45, 48, 52, 56, 59, 62, 67, 72, 77, 82, 85, 88, 94, 100, 103,
    106, 112, 118, 120, 122, 122, 122, 126, 130, 135, 140, 148, 162, 162, 165, 168, 172, 176, 181,
    186, 189, 192, 196, 200, 205, 208, 211, 211, 211, 214, 217, 221, 225, 229, 233, 238, 243, 245,
    247, 253, 259, 266, 273, 280, 287, 294, 301, 305, 309, 315, 321, 321, 321, 326, 331, 331, 331,
    335, 339, 344, 349, 355, 361, 367, 373, 380, 387, 392, 399, 403, 403, 403, 403, 403, 403, 403,
    403, 403, 408, 408, 414, 418, 422, 427, 427, 431, 434, 438, 443, 449, 455, 461, 466, 472, 472,
    472, 472, 472, 472, 472, 472, 472, 472, 477,
];

// Copies the name of a character from U+2A80 to U+2AFD to the start of `room` and returns its length, 0 if it has none.
pub fn from_2a80(code: u32, room: &mut [u8]) -> usize
    requires { (0x2A80 ≤ code) × (code ≤ 0x2AFD) × (20 ≤ length room.old) }
    ensures { Puts (given (name_of (utf8 code))) result room.old room.new × (result ≤ 20) }
{
    place::put_named(code, 0x2A80, &FROM_2A80_NAMES, &FROM_2A80_OFFSETS, room)
}

const FROM_FB00_NAMES: [u8; 27] = *b"\
    ffligfiligflligffiligffllig";

const FROM_FB00_OFFSETS: [u16; 6] = [0, 5, 10, 15, 21, 27];

// Copies the name of a character from U+FB00 to U+FB04 to the start of `room` and returns its length, 0 if it has none.
pub fn from_fb00(code: u32, room: &mut [u8]) -> usize
    requires { (0xFB00 ≤ code) × (code ≤ 0xFB04) × (20 ≤ length room.old) }
    ensures { Puts (given (name_of (utf8 code))) result room.old room.new × (result ≤ 20) }
{
    place::put_named(code, 0xFB00, &FROM_FB00_NAMES, &FROM_FB00_OFFSETS, room)
}

const FROM_1D49C_NAMES: [u8; 485] = *b"\
    AscrCscrDscrGscrJscrKscrNscrOscrPscrQscrSscrTscrUscrVscrWscrXscrYscrZscrascrbscrcscrdscrfscrhscriscrjscrkscr\
    lscrmscrnscrpscrqscrrscrsscrtscruscrvscrwscrxscryscrzscrAfrBfrDfrEfrFfrGfrJfrKfrLfrMfrNfrOfrPfrQfrSfrTfrUfrVfr\
    WfrXfrYfrafrbfrcfrdfrefrffrgfrhfrifrjfrkfrlfrmfrnfrofrpfrqfrrfrsfrtfrufrvfrwfrxfryfrzfrAopfBopfDopfEopfFopf\
    GopfIopfJopfKopfLopfMopfOopfSopfTopfUopfVopfWopfXopfYopfaopfbopfcopfdopfeopffopfgopfhopfiopfjopfkopflopfmopf\
    nopfoopfpopfqopfropfsopftopfuopfvopfwopfxopfyopfzopf";

const FROM_1D49C_OFFSETS: [u16; 209] = [
    0, 4, 4, 8, 12, 12, 12, 16, 16, 16, 20, 24, 24, 24, 28, 32, 36, 40, 40, 44, 48, 52, 56, 60, 64,
    68, 72, 76, 80, 84, 88, 88, 92, 92, 96, 100, 104, 108, 112, 116, 120, 120, 124, 128, 132, 136,
    140, 144, 148, 152, 156, 160, 164, 164, 164, 164, 164, 164, 164, 164, 164, 164, 164, 164, 164,
    164, 164, 164, 164, 164, 164, 164, 164, 164, 164, 164, 164, 164, 164, 164, 164, 164, 164, 164,
    164, 164, 164, 164, 164, 164, 164, 164, 164, 164, 164, 164, 164, 164, 164, 164, 164, 164, 164,
    164, 164, 167, 170, 170, 173, 176, 179, 182, 182, 182, 185, 188, 191, 194, 197, 200, 203, 206,
    206, 209, 212, 215, 218, 221, 224, 227, 227, 230, 233, 236, 239, 242, 245, 248, 251, 254, 257,
    260, 263, 266, 269, 272, 275, 278, 281, 284, 287, 290, 293, 296, 299, 302, 305, 309, 313, 313,
    317, 321, 325, 329, 329, 333, 337, 341, 345, 349, 349, 353, 353, 353, 353, 357, 361, 365, 369,
    373, 377, 381, 381, 385, 389, 393, 397, 401, 405, 409, 413, 417, 421, 425, 429, 433, 437, 441,
    445, 449, 453, 457, 461, 465, 469, 473, 477, 481, 485,
];

// Copies the name of a character from U+1D49C to U+1D56B to the start of `room` and returns its length, 0 if it has none.
pub fn from_1d49c(code: u32, room: &mut [u8]) -> usize
    requires { (0x1D49C ≤ code) × (code ≤ 0x1D56B) × (20 ≤ length room.old) }
    ensures { Puts (given (name_of (utf8 code))) result room.old room.new × (result ≤ 20) }
{
    place::put_named(code, 0x1D49C, &FROM_1D49C_NAMES, &FROM_1D49C_OFFSETS, room)
}
