// Made by tools/make_names.py from the entries of crates/rules/specs/Names.antt; not to be edited.
// The names that begin with m to z, a function for each letter, and in it groups by the second byte, or by the second and the fourth. Each group
// is a table: the names one after the other without their first letter, the length of each, and the numbers of their values (`code_bytes` in
// crates/names_search/specs/Lent.antt).
// A function for each group, as each has a contract of its own, proved by computing; the work of all is `Table::find`.
#![tactic(auto)]

ghost use Rattle.std.specs.Prelude.{◌≡◌, ◌∷◌};
ghost use Rattle.rules.specs.Names.{lower-m, lower-n, lower-o, lower-p, lower-q, lower-r, lower-s, lower-t, lower-u, lower-v, lower-w, lower-x, lower-y, lower-z};
ghost use Rattle.rules.specs.References.{lookup};
ghost use Rattle.rules.specs.Answers.{meaning_bytes};
ghost use Rattle.names_search.specs.Having.{having};

use names_search::Table;
use rules::DecodedEntityValue;

const LOWER_M_1: Table<'static> = Table {
    names: b"\
        DDotacralealtalteseapapstoapstodownapstoleftapstouparkercommacydasheasuredanglefrhoicroididastidciriddot\
        inusinusbinusdinusdulcpldrnplusodelsopfp",
    lengths: &[
        4, 3, 3, 3, 6, 2, 5, 9, 9, 7, 5, 5, 2, 4, 12, 2, 2, 4, 2, 5, 5, 5, 4, 5, 5, 6, 3, 3, 5, 5,
        3, 1,
    ],
    values: &[
        0x223A, // mDDot
        0x00AF, // macr
        0x2642, // male
        0x2720, // malt
        0x2720, // maltese
        0x21A6, // map
        0x21A6, // mapsto
        0x21A7, // mapstodown
        0x21A4, // mapstoleft
        0x21A5, // mapstoup
        0x25AE, // marker
        0x2A29, // mcomma
        0x043C, // mcy
        0x2014, // mdash
        0x2221, // measuredangle
        0xE12A, // mfr
        0x2127, // mho
        0x00B5, // micro
        0x2223, // mid
        0x002A, // midast
        0x2AF0, // midcir
        0x00B7, // middot
        0x2212, // minus
        0x229F, // minusb
        0x2238, // minusd
        0x2A2A, // minusdu
        0x2ADB, // mlcp
        0x2026, // mldr
        0x2213, // mnplus
        0x22A7, // models
        0xE15E, // mopf
        0x2213, // mp
    ],
};

// What `m` and `rest` stand for, where `rest` begins with a byte from 00 to 72 hex.
fn lower_m_1(rest: &[u8]) -> Option<DecodedEntityValue>
    ensures { meaning_bytes result ≡ lookup (having 1 (0x00, 0x72) lower-m) (0x6D ∷ rest.now) }
{
    LOWER_M_1.find(rest)
}

const LOWER_M_2: Table<'static> = Table {
    names: b"\
        scrstposuultimapumap",
    lengths: &[3, 5, 1, 7, 4],
    values: &[
        0xE0C2, // mscr
        0x223E, // mstpos
        0x03BC, // mu
        0x22B8, // multimap
        0x22B8, // mumap
    ],
};

// What `m` and `rest` stand for, where `rest` begins with a byte from 73 to FF hex.
fn lower_m_2(rest: &[u8]) -> Option<DecodedEntityValue>
    ensures { meaning_bytes result ≡ lookup (having 1 (0x73, 0xFF) lower-m) (0x6D ∷ rest.now) }
{
    LOWER_M_2.find(rest)
}

// What `m` and `rest` stand for.
pub fn lower_m(rest: &[u8]) -> Option<DecodedEntityValue>
    ensures { meaning_bytes result ≡ lookup lower-m (0x6D ∷ rest.now) }
{
    let second = names_search::byte_at(rest, 0);
    if second < b's' {
        return lower_m_1(rest);
    }
    lower_m_2(rest)
}

const LOWER_N_1: Table<'static> = Table {
    names: b"\
        GgGtGtvLeftarrowLeftrightarrowLlLtLtvRightarrowVDashVdashablaacuteangapapEapidaposapproxaturaturalaturals\
        bspbumpbumpecapcaroncedilcongcongdotcupcy",
    lengths: &[
        2, 2, 3, 9, 14, 2, 2, 3, 10, 5, 5, 4, 5, 3, 2, 3, 4, 4, 6, 4, 6, 7, 3, 4, 5, 3, 5, 5, 4, 7,
        3, 2,
    ],
    values: &[
        0xF024, // nGg
        0xF025, // nGt
        0xF002, // nGtv
        0x21CD, // nLeftarrow
        0x21CE, // nLeftrightarrow
        0xF026, // nLl
        0xF027, // nLt
        0xF007, // nLtv
        0x21CF, // nRightarrow
        0x22AF, // nVDash
        0x22AE, // nVdash
        0x2207, // nabla
        0x0144, // nacute
        0xF028, // nang
        0x2249, // nap
        0xF029, // napE
        0xF02A, // napid
        0x0149, // napos
        0x2249, // napprox
        0x266E, // natur
        0x266E, // natural
        0x2115, // naturals
        0x00A0, // nbsp
        0xF004, // nbump
        0xF005, // nbumpe
        0x2A43, // ncap
        0x0148, // ncaron
        0x0146, // ncedil
        0x2247, // ncong
        0xF02B, // ncongdot
        0x2A42, // ncup
        0x043D, // ncy
    ],
};

// What `n` and `rest` stand for, where `rest` begins with a byte from 00 to 63 hex.
fn lower_n_1(rest: &[u8]) -> Option<DecodedEntityValue>
    ensures { meaning_bytes result ≡ lookup (having 1 (0x00, 0x63) lower-n) (0x6E ∷ rest.now) }
{
    LOWER_N_1.find(rest)
}

const LOWER_N_2: Table<'static> = Table {
    names: b"\
        dasheeArrearhkearrearrowedotequivesearesimexistexistsfrgEgegeqgeqqgeqslantgesgsimgtgtrhArrharrhpariisisdiv\
        jcy",
    lengths: &[
        4, 1, 4, 5, 4, 6, 4, 5, 5, 4, 5, 6, 2, 2, 2, 3, 4, 8, 3, 4, 2, 3, 4, 4, 4, 1, 2, 3, 2, 3,
    ],
    values: &[
        0x2013, // ndash
        0x2260, // ne
        0x21D7, // neArr
        0x2924, // nearhk
        0x2197, // nearr
        0x2197, // nearrow
        0xF02C, // nedot
        0x2262, // nequiv
        0x2928, // nesear
        0xF000, // nesim
        0x2204, // nexist
        0x2204, // nexists
        0xE12B, // nfr
        0xF001, // ngE
        0x2271, // nge
        0x2271, // ngeq
        0xF001, // ngeqq
        0xF003, // ngeqslant
        0xF003, // nges
        0x2275, // ngsim
        0x226F, // ngt
        0x226F, // ngtr
        0x21CE, // nhArr
        0x21AE, // nharr
        0x2AF2, // nhpar
        0x220B, // ni
        0x22FC, // nis
        0x22FA, // nisd
        0x220B, // niv
        0x045A, // njcy
    ],
};

// What `n` and `rest` stand for, where `rest` begins with a byte from 64 to 6B hex.
fn lower_n_2(rest: &[u8]) -> Option<DecodedEntityValue>
    ensures { meaning_bytes result ≡ lookup (having 1 (0x64, 0x6B) lower-n) (0x6E ∷ rest.now) }
{
    LOWER_N_2.find(rest)
}

const LOWER_N_3: Table<'static> = Table {
    names: b"\
        lArrlElarrldrleleftarrowleftrightarrowleqleqqleqslantleslesslsimltltriltriemidopfototinotinEotindototinva\
        otinvbotinvcotniotnivaotnivbotnivc",
    lengths: &[
        4, 2, 4, 3, 2, 9, 14, 3, 4, 8, 3, 4, 4, 2, 4, 5, 3, 3, 2, 4, 5, 7, 6, 6, 6, 4, 6, 6, 6,
    ],
    values: &[
        0x21CD, // nlArr
        0xF02D, // nlE
        0x219A, // nlarr
        0x2025, // nldr
        0x2270, // nle
        0x219A, // nleftarrow
        0x21AE, // nleftrightarrow
        0x2270, // nleq
        0xF02D, // nleqq
        0xF008, // nleqslant
        0xF008, // nles
        0x226E, // nless
        0x2274, // nlsim
        0x226E, // nlt
        0x22EA, // nltri
        0x22EC, // nltrie
        0x2224, // nmid
        0xE15F, // nopf
        0x00AC, // not
        0x2209, // notin
        0xF02E, // notinE
        0xF02F, // notindot
        0x2209, // notinva
        0x22F7, // notinvb
        0x22F6, // notinvc
        0x220C, // notni
        0x220C, // notniva
        0x22FE, // notnivb
        0x22FD, // notnivc
    ],
};

// What `n` and `rest` stand for, where `rest` begins with a byte from 6C to 6F hex.
fn lower_n_3(rest: &[u8]) -> Option<DecodedEntityValue>
    ensures { meaning_bytes result ≡ lookup (having 1 (0x6C, 0x6F) lower-n) (0x6E ∷ rest.now) }
{
    LOWER_N_3.find(rest)
}

const LOWER_N_4: Table<'static> = Table {
    names: b"\
        parparallelparslpartpolintprprcuepreprecpreceqrArrrarrrarrcrarrwrightarrowrtrirtrie",
    lengths: &[3, 8, 5, 4, 6, 2, 5, 3, 4, 6, 4, 4, 5, 5, 10, 4, 5],
    values: &[
        0x2226, // npar
        0x2226, // nparallel
        0xF030, // nparsl
        0xF031, // npart
        0x2A14, // npolint
        0x2280, // npr
        0x22E0, // nprcue
        0xF00B, // npre
        0x2280, // nprec
        0xF00B, // npreceq
        0x21CF, // nrArr
        0x219B, // nrarr
        0xF032, // nrarrc
        0xF033, // nrarrw
        0x219B, // nrightarrow
        0x22EB, // nrtri
        0x22ED, // nrtrie
    ],
};

// What `n` and `rest` stand for, where `rest` begins with a byte from 70 to 72 hex.
fn lower_n_4(rest: &[u8]) -> Option<DecodedEntityValue>
    ensures { meaning_bytes result ≡ lookup (having 1 (0x70, 0x72) lower-n) (0x6E ∷ rest.now) }
{
    LOWER_N_4.find(rest)
}

const LOWER_N_5: Table<'static> = Table {
    names: b"\
        scsccuescescrshortmidshortparallelsimsimesimeqsmidsparsqsubesqsupesubsubEsubesubsetsubseteqsubseteqqsucc\
        succeqsupsupEsupesupsetsupseteqsupseteqq",
    lengths: &[
        2, 5, 3, 3, 8, 13, 3, 4, 5, 4, 4, 6, 6, 3, 4, 4, 6, 8, 9, 4, 6, 3, 4, 4, 6, 8, 9,
    ],
    values: &[
        0x2281, // nsc
        0x22E1, // nsccue
        0xF010, // nsce
        0xE0C3, // nscr
        0x2224, // nshortmid
        0x2226, // nshortparallel
        0x2241, // nsim
        0x2244, // nsime
        0x2244, // nsimeq
        0x2224, // nsmid
        0x2226, // nspar
        0x22E2, // nsqsube
        0x22E3, // nsqsupe
        0x2284, // nsub
        0xF034, // nsubE
        0x2288, // nsube
        0xF00F, // nsubset
        0x2288, // nsubseteq
        0xF034, // nsubseteqq
        0x2281, // nsucc
        0xF010, // nsucceq
        0x2285, // nsup
        0xF035, // nsupE
        0x2289, // nsupe
        0xF012, // nsupset
        0x2289, // nsupseteq
        0xF035, // nsupseteqq
    ],
};

// What `n` and `rest` stand for, where `rest` begins with a byte from 73 to 73 hex.
fn lower_n_5(rest: &[u8]) -> Option<DecodedEntityValue>
    ensures { meaning_bytes result ≡ lookup (having 1 (0x73, 0x73) lower-n) (0x6E ∷ rest.now) }
{
    LOWER_N_5.find(rest)
}

const LOWER_N_6: Table<'static> = Table {
    names: b"\
        tgltildetlgtrianglelefttrianglelefteqtrianglerighttrianglerightequumumeroumspvDashvHarrvapvdashvgevgt\
        vinfinvlArrvlevltvltrievrArrvrtrievsimwArrwarhkwarrwarrowwnear",
    lengths: &[
        3, 5, 3, 12, 14, 13, 15, 1, 2, 5, 4, 5, 5, 3, 5, 3, 3, 6, 5, 3, 3, 6, 5, 6, 4, 4, 5, 4, 6,
        5,
    ],
    values: &[
        0x2279, // ntgl
        0x00F1, // ntilde
        0x2278, // ntlg
        0x22EA, // ntriangleleft
        0x22EC, // ntrianglelefteq
        0x22EB, // ntriangleright
        0x22ED, // ntrianglerighteq
        0x03BD, // nu
        0x0023, // num
        0x2116, // numero
        0x2007, // numsp
        0x22AD, // nvDash
        0x2904, // nvHarr
        0xF036, // nvap
        0x22AC, // nvdash
        0xF037, // nvge
        0xF038, // nvgt
        0x29DE, // nvinfin
        0x2902, // nvlArr
        0xF039, // nvle
        0xF03A, // nvlt
        0xF03B, // nvltrie
        0x2903, // nvrArr
        0xF03C, // nvrtrie
        0xF03D, // nvsim
        0x21D6, // nwArr
        0x2923, // nwarhk
        0x2196, // nwarr
        0x2196, // nwarrow
        0x2927, // nwnear
    ],
};

// What `n` and `rest` stand for, where `rest` begins with a byte from 74 to FF hex.
fn lower_n_6(rest: &[u8]) -> Option<DecodedEntityValue>
    ensures { meaning_bytes result ≡ lookup (having 1 (0x74, 0xFF) lower-n) (0x6E ∷ rest.now) }
{
    LOWER_N_6.find(rest)
}

// What `n` and `rest` stand for.
pub fn lower_n(rest: &[u8]) -> Option<DecodedEntityValue>
    ensures { meaning_bytes result ≡ lookup lower-n (0x6E ∷ rest.now) }
{
    let second = names_search::byte_at(rest, 0);
    if second < b'd' {
        return lower_n_1(rest);
    }
    if second < b'l' {
        return lower_n_2(rest);
    }
    if second < b'p' {
        return lower_n_3(rest);
    }
    if second < b's' {
        return lower_n_4(rest);
    }
    if second < b't' {
        return lower_n_5(rest);
    }
    lower_n_6(rest)
}

const LOWER_O_1: Table<'static> = Table {
    names: b"\
        Sacuteastcircirccydashdblacdivdotdsoldeligfcirfrgongravegthbarhmintlarrlcirlcrosslineltmacrmegamicronmid\
        minusopf",
    lengths: &[
        1, 5, 3, 3, 4, 2, 4, 5, 3, 3, 5, 4, 4, 2, 3, 5, 2, 4, 2, 3, 4, 4, 6, 4, 2, 4, 4, 6, 3, 5, 3,
    ],
    values: &[
        0x24C8, // oS
        0x00F3, // oacute
        0x229B, // oast
        0x229A, // ocir
        0x00F4, // ocirc
        0x043E, // ocy
        0x229D, // odash
        0x0151, // odblac
        0x2A38, // odiv
        0x2299, // odot
        0x29BC, // odsold
        0x0153, // oelig
        0x29BF, // ofcir
        0xE12C, // ofr
        0x02DB, // ogon
        0x00F2, // ograve
        0x29C1, // ogt
        0x29B5, // ohbar
        0x03A9, // ohm
        0x222E, // oint
        0x21BA, // olarr
        0x29BE, // olcir
        0x29BB, // olcross
        0x203E, // oline
        0x29C0, // olt
        0x014D, // omacr
        0x03C9, // omega
        0x03BF, // omicron
        0x29B6, // omid
        0x2296, // ominus
        0xE160, // oopf
    ],
};

// What `o` and `rest` stand for, where `rest` begins with a byte from 00 to 6F hex.
fn lower_o_1(rest: &[u8]) -> Option<DecodedEntityValue>
    ensures { meaning_bytes result ≡ lookup (having 1 (0x00, 0x6F) lower-o) (0x6F ∷ rest.now) }
{
    LOWER_O_1.find(rest)
}

const LOWER_O_2: Table<'static> = Table {
    names: b"\
        parperpplusrrarrrdrderrderofrdfrdmrigofrorrslopervscrslashsoltildetimestimesasumlvbar",
    lengths: &[
        3, 4, 4, 1, 4, 2, 4, 6, 3, 3, 5, 3, 6, 2, 3, 5, 3, 5, 5, 7, 3, 4,
    ],
    values: &[
        0x29B7, // opar
        0x29B9, // operp
        0x2295, // oplus
        0x2228, // or
        0x21BB, // orarr
        0x2A5D, // ord
        0x2134, // order
        0x2134, // orderof
        0x00AA, // ordf
        0x00BA, // ordm
        0x22B6, // origof
        0x2A56, // oror
        0x2A57, // orslope
        0x2A5B, // orv
        0x2134, // oscr
        0x00F8, // oslash
        0x2298, // osol
        0x00F5, // otilde
        0x2297, // otimes
        0x2A36, // otimesas
        0x00F6, // ouml
        0x233D, // ovbar
    ],
};

// What `o` and `rest` stand for, where `rest` begins with a byte from 70 to FF hex.
fn lower_o_2(rest: &[u8]) -> Option<DecodedEntityValue>
    ensures { meaning_bytes result ≡ lookup (having 1 (0x70, 0xFF) lower-o) (0x6F ∷ rest.now) }
{
    LOWER_O_2.find(rest)
}

// What `o` and `rest` stand for.
pub fn lower_o(rest: &[u8]) -> Option<DecodedEntityValue>
    ensures { meaning_bytes result ≡ lookup lower-o (0x6F ∷ rest.now) }
{
    let second = names_search::byte_at(rest, 0);
    if second < b'p' {
        return lower_o_1(rest);
    }
    lower_o_2(rest)
}

const LOWER_P_1: Table<'static> = Table {
    names: b"\
        araraarallelarsimarslartcyercnteriodermilerpertenkfrhihivhmmathoneiitchforkiv",
    lengths: &[2, 3, 7, 5, 4, 3, 2, 5, 5, 5, 3, 6, 2, 2, 3, 5, 4, 1, 8, 2],
    values: &[
        0x2225, // par
        0x00B6, // para
        0x2225, // parallel
        0x2AF3, // parsim
        0x2AFD, // parsl
        0x2202, // part
        0x043F, // pcy
        0x0025, // percnt
        0x002E, // period
        0x2030, // permil
        0x22A5, // perp
        0x2031, // pertenk
        0xE12D, // pfr
        0x03C6, // phi
        0x03D5, // phiv
        0x2133, // phmmat
        0x260E, // phone
        0x03C0, // pi
        0x22D4, // pitchfork
        0x03D6, // piv
    ],
};

// What `p` and `rest` stand for, where `rest` begins with a byte from 00 to 6B hex.
fn lower_p_1(rest: &[u8]) -> Option<DecodedEntityValue>
    ensures { meaning_bytes result ≡ lookup (having 1 (0x00, 0x6B) lower-p) (0x70 ∷ rest.now) }
{
    LOWER_P_1.find(rest)
}

const LOWER_P_2: Table<'static> = Table {
    names: b"\
        lancklanckhlankvluslusacirlusbluscirlusdolusduluselusmnlussimlustwomointintopfound",
    lengths: &[5, 6, 5, 3, 7, 4, 6, 5, 5, 4, 5, 6, 6, 1, 7, 3, 4],
    values: &[
        0x210F, // planck
        0x210E, // planckh
        0x210F, // plankv
        0x002B, // plus
        0x2A23, // plusacir
        0x229E, // plusb
        0x2A22, // pluscir
        0x2214, // plusdo
        0x2A25, // plusdu
        0x2A72, // pluse
        0x00B1, // plusmn
        0x2A26, // plussim
        0x2A27, // plustwo
        0x00B1, // pm
        0x2A15, // pointint
        0xE161, // popf
        0x00A3, // pound
    ],
};

// What `p` and `rest` stand for, where `rest` begins with a byte from 6C to 71 hex.
fn lower_p_2(rest: &[u8]) -> Option<DecodedEntityValue>
    ensures { meaning_bytes result ≡ lookup (having 1 (0x6C, 0x71) lower-p) (0x70 ∷ rest.now) }
{
    LOWER_P_2.find(rest)
}

const LOWER_P_3: Table<'static> = Table {
    names: b"\
        rrEraprcuererecrecapproxreccurlyeqreceqrecnapproxrecneqqrecnsimrecsimrimerimesrnErnaprnsimrodrofalar\
        roflinerofsurfroproptorsimrurelscrsiuncsp",
    lengths: &[
        1, 2, 3, 4, 2, 3, 9, 10, 5, 10, 7, 7, 6, 4, 5, 3, 4, 5, 3, 7, 7, 7, 3, 5, 4, 5, 3, 2, 5,
    ],
    values: &[
        0x227A, // pr
        0x2AB3, // prE
        0x2AB7, // prap
        0x227C, // prcue
        0x2AAF, // pre
        0x227A, // prec
        0x2AB7, // precapprox
        0x227C, // preccurlyeq
        0x2AAF, // preceq
        0x2AB9, // precnapprox
        0x2AB5, // precneqq
        0x22E8, // precnsim
        0x227E, // precsim
        0x2032, // prime
        0x2119, // primes
        0x2AB5, // prnE
        0x2AB9, // prnap
        0x22E8, // prnsim
        0x220F, // prod
        0x232E, // profalar
        0x2312, // profline
        0x2313, // profsurf
        0x221D, // prop
        0x221D, // propto
        0x227E, // prsim
        0x22B0, // prurel
        0xE0C5, // pscr
        0x03C8, // psi
        0x2008, // puncsp
    ],
};

// What `p` and `rest` stand for, where `rest` begins with a byte from 72 to FF hex.
fn lower_p_3(rest: &[u8]) -> Option<DecodedEntityValue>
    ensures { meaning_bytes result ≡ lookup (having 1 (0x72, 0xFF) lower-p) (0x70 ∷ rest.now) }
{
    LOWER_P_3.find(rest)
}

// What `p` and `rest` stand for.
pub fn lower_p(rest: &[u8]) -> Option<DecodedEntityValue>
    ensures { meaning_bytes result ≡ lookup lower-p (0x70 ∷ rest.now) }
{
    let second = names_search::byte_at(rest, 0);
    if second < b'l' {
        return lower_p_1(rest);
    }
    if second < b'r' {
        return lower_p_2(rest);
    }
    lower_p_3(rest)
}

const LOWER_Q: Table<'static> = Table {
    names: b"\
        frintopfprimescruaternionsuatintuestuestequot",
    lengths: &[2, 3, 3, 5, 3, 10, 6, 4, 6, 3],
    values: &[
        0xE12E, // qfr
        0x2A0C, // qint
        0xE162, // qopf
        0x2057, // qprime
        0xE0C6, // qscr
        0x210D, // quaternions
        0x2A16, // quatint
        0x003F, // quest
        0x225F, // questeq
        0x0022, // quot
    ],
};

// What `q` and `rest` stand for.
pub fn lower_q(rest: &[u8]) -> Option<DecodedEntityValue>
    ensures { meaning_bytes result ≡ lookup lower-q (0x71 ∷ rest.now) }
{
    LOWER_Q.find(rest)
}

const LOWER_R_1: Table<'static> = Table {
    names: b"\
        AarrArrAtailBarrHaraceacuteadicaemptyvangangdangeangleaquoarrarraparrbarrbfsarrcarrfsarrhkarrlparrplarrsim\
        arrtlarrwatailatioationals",
    lengths: &[
        4, 3, 5, 4, 3, 3, 5, 4, 7, 3, 4, 4, 5, 4, 3, 5, 4, 6, 4, 5, 5, 5, 5, 6, 5, 4, 5, 4, 8,
    ],
    values: &[
        0x21DB, // rAarr
        0x21D2, // rArr
        0x291C, // rAtail
        0x290F, // rBarr
        0x2964, // rHar
        0xF03E, // race
        0x0155, // racute
        0x221A, // radic
        0x29B3, // raemptyv
        0x27E9, // rang
        0x2992, // rangd
        0x29A5, // range
        0x27E9, // rangle
        0x00BB, // raquo
        0x2192, // rarr
        0x2975, // rarrap
        0x21E5, // rarrb
        0x2920, // rarrbfs
        0x2933, // rarrc
        0x291E, // rarrfs
        0x21AA, // rarrhk
        0x21AC, // rarrlp
        0x2945, // rarrpl
        0x2974, // rarrsim
        0x21A3, // rarrtl
        0x219D, // rarrw
        0x291A, // ratail
        0x2236, // ratio
        0x211A, // rationals
    ],
};

// What `r` and `rest` stand for, where `rest` begins with a byte from 00 to 61 hex.
fn lower_r_1(rest: &[u8]) -> Option<DecodedEntityValue>
    ensures { meaning_bytes result ≡ lookup (having 1 (0x00, 0x61) lower-r) (0x72 ∷ rest.now) }
{
    LOWER_R_1.find(rest)
}

const LOWER_R_2: Table<'static> = Table {
    names: b"\
        barrbbrkbracebrackbrkebrksldbrkslucaroncedilceilcubcydcadldhardquodquordshealealineealpartealsectegfisht\
        floorfrhardharuharulhohov",
    lengths: &[
        4, 4, 5, 5, 4, 6, 6, 5, 5, 4, 3, 2, 3, 6, 4, 5, 3, 3, 6, 7, 4, 3, 2, 5, 5, 2, 4, 4, 5, 2, 3,
    ],
    values: &[
        0x290D, // rbarr
        0x2773, // rbbrk
        0x007D, // rbrace
        0x005D, // rbrack
        0x298C, // rbrke
        0x298E, // rbrksld
        0x2990, // rbrkslu
        0x0159, // rcaron
        0x0157, // rcedil
        0x2309, // rceil
        0x007D, // rcub
        0x0440, // rcy
        0x2937, // rdca
        0x2969, // rdldhar
        0x201D, // rdquo
        0x201D, // rdquor
        0x21B3, // rdsh
        0x211C, // real
        0x211B, // realine
        0x211C, // realpart
        0x211D, // reals
        0x25AD, // rect
        0x00AE, // reg
        0x297D, // rfisht
        0x230B, // rfloor
        0xE12F, // rfr
        0x21C1, // rhard
        0x21C0, // rharu
        0x296C, // rharul
        0x03C1, // rho
        0x03F1, // rhov
    ],
};

// What `r` and `rest` stand for, where `rest` begins with a byte from 62 to 68 hex.
fn lower_r_2(rest: &[u8]) -> Option<DecodedEntityValue>
    ensures { meaning_bytes result ≡ lookup (having 1 (0x62, 0x68) lower-r) (0x72 ∷ rest.now) }
{
    LOWER_R_2.find(rest)
}

const LOWER_R_3: Table<'static> = Table {
    names: b"\
        ightarrowightarrowtailightharpoondownightharpoonupightleftarrowsightleftharpoonsightrightarrows\
        ightsquigarrowightthreetimesingisingdotseqlarrlharlmmoustmoustachenmidoangoarrobrkoparopfoplusotimespar\
        pargtppolintrarr",
    lengths: &[
        9, 13, 15, 13, 14, 16, 15, 14, 14, 3, 11, 4, 4, 2, 5, 9, 4, 4, 4, 4, 4, 3, 5, 6, 3, 5, 7, 4,
    ],
    values: &[
        0x2192, // rightarrow
        0x21A3, // rightarrowtail
        0x21C1, // rightharpoondown
        0x21C0, // rightharpoonup
        0x21C4, // rightleftarrows
        0x21CC, // rightleftharpoons
        0x21C9, // rightrightarrows
        0x219D, // rightsquigarrow
        0x22CC, // rightthreetimes
        0x02DA, // ring
        0x2253, // risingdotseq
        0x21C4, // rlarr
        0x21CC, // rlhar
        0x200F, // rlm
        0x23B1, // rmoust
        0x23B1, // rmoustache
        0x2AEE, // rnmid
        0x27ED, // roang
        0x21FE, // roarr
        0x27E7, // robrk
        0x2986, // ropar
        0xE163, // ropf
        0x2A2E, // roplus
        0x2A35, // rotimes
        0x0029, // rpar
        0x2994, // rpargt
        0x2A12, // rppolint
        0x21C9, // rrarr
    ],
};

// What `r` and `rest` stand for, where `rest` begins with a byte from 69 to 72 hex.
fn lower_r_3(rest: &[u8]) -> Option<DecodedEntityValue>
    ensures { meaning_bytes result ≡ lookup (having 1 (0x69, 0x72) lower-r) (0x72 ∷ rest.now) }
{
    LOWER_R_3.find(rest)
}

const LOWER_R_4: Table<'static> = Table {
    names: b"\
        saquoscrshsqbsquosquorthreetimestritrietriftriltriuluharx",
    lengths: &[5, 3, 2, 3, 4, 5, 5, 5, 3, 4, 4, 7, 6, 1],
    values: &[
        0x203A, // rsaquo
        0xE0C7, // rscr
        0x21B1, // rsh
        0x005D, // rsqb
        0x2019, // rsquo
        0x2019, // rsquor
        0x22CC, // rthree
        0x22CA, // rtimes
        0x25B9, // rtri
        0x22B5, // rtrie
        0x25B8, // rtrif
        0x29CE, // rtriltri
        0x2968, // ruluhar
        0x211E, // rx
    ],
};

// What `r` and `rest` stand for, where `rest` begins with a byte from 73 to FF hex.
fn lower_r_4(rest: &[u8]) -> Option<DecodedEntityValue>
    ensures { meaning_bytes result ≡ lookup (having 1 (0x73, 0xFF) lower-r) (0x72 ∷ rest.now) }
{
    LOWER_R_4.find(rest)
}

// What `r` and `rest` stand for.
pub fn lower_r(rest: &[u8]) -> Option<DecodedEntityValue>
    ensures { meaning_bytes result ≡ lookup lower-r (0x72 ∷ rest.now) }
{
    let second = names_search::byte_at(rest, 0);
    if second < b'b' {
        return lower_r_1(rest);
    }
    if second < b'i' {
        return lower_r_2(rest);
    }
    if second < b's' {
        return lower_r_3(rest);
    }
    lower_r_4(rest)
}

const LOWER_S_1: Table<'static> = Table {
    names: b"\
        acutebquoccEcapcaronccuececedilcirccnEcnapcnsimcpolintcsimcydotdotbdoteeArrearhkearrearrowectemieswar\
        etminusetmnextfrfrown",
    lengths: &[
        5, 4, 1, 2, 3, 5, 4, 2, 5, 4, 3, 4, 5, 7, 4, 2, 3, 4, 4, 4, 5, 4, 6, 3, 3, 5, 7, 4, 3, 2, 5,
    ],
    values: &[
        0x015B, // sacute
        0x201A, // sbquo
        0x227B, // sc
        0x2AB4, // scE
        0x2AB8, // scap
        0x0161, // scaron
        0x227D, // sccue
        0x2AB0, // sce
        0x015F, // scedil
        0x015D, // scirc
        0x2AB6, // scnE
        0x2ABA, // scnap
        0x22E9, // scnsim
        0x2A13, // scpolint
        0x227F, // scsim
        0x0441, // scy
        0x22C5, // sdot
        0x22A1, // sdotb
        0x2A66, // sdote
        0x21D8, // seArr
        0x2925, // searhk
        0x2198, // searr
        0x2198, // searrow
        0x00A7, // sect
        0x003B, // semi
        0x2929, // seswar
        0x2216, // setminus
        0x2216, // setmn
        0x2736, // sext
        0xE130, // sfr
        0x2322, // sfrown
    ],
};

// What `s` and `rest` stand for, where `rest` begins with a byte from 00 to 67 hex.
fn lower_s_1(rest: &[u8]) -> Option<DecodedEntityValue>
    ensures { meaning_bytes result ≡ lookup (having 1 (0x00, 0x67) lower-s) (0x73 ∷ rest.now) }
{
    LOWER_S_1.find(rest)
}

const LOWER_S_2: Table<'static> = Table {
    names: b"\
        harphchcyhcyhortmidhortparallelhyigmaigmafigmavimimdotimeimeqimgimgEimlimlEimneimplusimrarrlarr\
        mallsetminusmashpmeparslmidmilemtmtemtes",
    lengths: &[
        4, 5, 3, 7, 12, 2, 4, 5, 5, 2, 5, 3, 4, 3, 4, 3, 4, 4, 6, 6, 4, 12, 5, 7, 3, 4, 2, 3, 4,
    ],
    values: &[
        0x266F, // sharp
        0x0449, // shchcy
        0x0448, // shcy
        0x2223, // shortmid
        0x2225, // shortparallel
        0x00AD, // shy
        0x03C3, // sigma
        0x03C2, // sigmaf
        0x03C2, // sigmav
        0x223C, // sim
        0x2A6A, // simdot
        0x2243, // sime
        0x2243, // simeq
        0x2A9E, // simg
        0x2AA0, // simgE
        0x2A9D, // siml
        0x2A9F, // simlE
        0x2246, // simne
        0x2A24, // simplus
        0x2972, // simrarr
        0x2190, // slarr
        0x2216, // smallsetminus
        0x2A33, // smashp
        0x29E4, // smeparsl
        0x2223, // smid
        0x2323, // smile
        0x2AAA, // smt
        0x2AAC, // smte
        0xF03F, // smtes
    ],
};

// What `s` and `rest` stand for, where `rest` begins with a byte from 68 to 6E hex.
fn lower_s_2(rest: &[u8]) -> Option<DecodedEntityValue>
    ensures { meaning_bytes result ≡ lookup (having 1 (0x68, 0x6E) lower-s) (0x73 ∷ rest.now) }
{
    LOWER_S_2.find(rest)
}

const LOWER_S_3: Table<'static> = Table {
    names: b"\
        oftcyololbolbaropfpadespadesuitparqcapqcapsqcupqcupsqsubqsubeqsubsetqsubseteqqsupqsupeqsupsetqsupseteqqu\
        quarequarfqufrarrscrsetmnsmilestarf",
    lengths: &[
        5, 2, 3, 5, 3, 5, 8, 3, 4, 5, 4, 5, 4, 5, 7, 9, 4, 5, 7, 9, 2, 5, 5, 3, 4, 3, 5, 5, 5,
    ],
    values: &[
        0x044C, // softcy
        0x002F, // sol
        0x29C4, // solb
        0x233F, // solbar
        0xE164, // sopf
        0x2660, // spades
        0x2660, // spadesuit
        0x2225, // spar
        0x2293, // sqcap
        0xF040, // sqcaps
        0x2294, // sqcup
        0xF041, // sqcups
        0x228F, // sqsub
        0x2291, // sqsube
        0x228F, // sqsubset
        0x2291, // sqsubseteq
        0x2290, // sqsup
        0x2292, // sqsupe
        0x2290, // sqsupset
        0x2292, // sqsupseteq
        0x25A1, // squ
        0x25A1, // square
        0x25AA, // squarf
        0x25AA, // squf
        0x2192, // srarr
        0xE0C8, // sscr
        0x2216, // ssetmn
        0x2323, // ssmile
        0x22C6, // sstarf
    ],
};

// What `s` and `rest` stand for, where `rest` begins with a byte from 6F to 73 hex.
fn lower_s_3(rest: &[u8]) -> Option<DecodedEntityValue>
    ensures { meaning_bytes result ≡ lookup (having 1 (0x6F, 0x73) lower-s) (0x73 ∷ rest.now) }
{
    LOWER_S_3.find(rest)
}

const LOWER_S_4: Table<'static> = Table {
    names: b"\
        tartarftraightepsilontraightphitrns",
    lengths: &[3, 4, 14, 10, 4],
    values: &[
        0x2606, // star
        0x2605, // starf
        0x03F5, // straightepsilon
        0x03D5, // straightphi
        0x00AF, // strns
    ],
};

// What `s` and `rest` stand for, where `rest` begins with a byte from 74 to 74 hex.
fn lower_s_4(rest: &[u8]) -> Option<DecodedEntityValue>
    ensures { meaning_bytes result ≡ lookup (having 1 (0x74, 0x74) lower-s) (0x73 ∷ rest.now) }
{
    LOWER_S_4.find(rest)
}

const LOWER_S_5_1: Table<'static> = Table {
    names: b"\
        ububEubdotuccuccapproxucccurlyequccequccnapproxuccneqquccnsimuccsimumupup1up2up3upEupdotupdsub",
    lengths: &[2, 3, 5, 3, 9, 10, 5, 10, 7, 7, 6, 2, 2, 3, 3, 3, 3, 5, 6],
    values: &[
        0x2282, // sub
        0x2AC5, // subE
        0x2ABD, // subdot
        0x227B, // succ
        0x2AB8, // succapprox
        0x227D, // succcurlyeq
        0x2AB0, // succeq
        0x2ABA, // succnapprox
        0x2AB6, // succneqq
        0x22E9, // succnsim
        0x227F, // succsim
        0x2211, // sum
        0x2283, // sup
        0x00B9, // sup1
        0x00B2, // sup2
        0x00B3, // sup3
        0x2AC6, // supE
        0x2ABE, // supdot
        0x2AD8, // supdsub
    ],
};

// What `s` and `rest` stand for, where `rest` begins with a byte from 75 to 76 hex and the fourth byte of the name is one from 00 to 64 hex.
fn lower_s_5_1(rest: &[u8]) -> Option<DecodedEntityValue>
    ensures { meaning_bytes result ≡ lookup (having 3 (0x00, 0x64) (having 1 (0x75, 0x76) lower-s)) (0x73 ∷ rest.now) }
{
    LOWER_S_5_1.find(rest)
}

const LOWER_S_5_2: Table<'static> = Table {
    names: b"\
        ubeubedotubmultubnEubneubplusubrarrungupeupedotuphsoluphsubuplarrupmultupnEupneupplus",
    lengths: &[3, 6, 6, 4, 4, 6, 6, 3, 3, 6, 6, 6, 6, 6, 4, 4, 6],
    values: &[
        0x2286, // sube
        0x2AC3, // subedot
        0x2AC1, // submult
        0x2ACB, // subnE
        0x228A, // subne
        0x2ABF, // subplus
        0x2979, // subrarr
        0x266A, // sung
        0x2287, // supe
        0x2AC4, // supedot
        0x27C9, // suphsol
        0x2AD7, // suphsub
        0x297B, // suplarr
        0x2AC2, // supmult
        0x2ACC, // supnE
        0x228B, // supne
        0x2AC0, // supplus
    ],
};

// What `s` and `rest` stand for, where `rest` begins with a byte from 75 to 76 hex and the fourth byte of the name is one from 65 to 72 hex.
fn lower_s_5_2(rest: &[u8]) -> Option<DecodedEntityValue>
    ensures { meaning_bytes result ≡ lookup (having 3 (0x65, 0x72) (having 1 (0x75, 0x76) lower-s)) (0x73 ∷ rest.now) }
{
    LOWER_S_5_2.find(rest)
}

const LOWER_S_5_3: Table<'static> = Table {
    names: b"\
        ubsetubsetequbseteqqubsetnequbsetneqqubsimubsububsupupsetupsetequpseteqqupsetnequpsetneqqupsimupsubupsup",
    lengths: &[5, 7, 8, 8, 9, 5, 5, 5, 5, 7, 8, 8, 9, 5, 5, 5],
    values: &[
        0x2282, // subset
        0x2286, // subseteq
        0x2AC5, // subseteqq
        0x228A, // subsetneq
        0x2ACB, // subsetneqq
        0x2AC7, // subsim
        0x2AD5, // subsub
        0x2AD3, // subsup
        0x2283, // supset
        0x2287, // supseteq
        0x2AC6, // supseteqq
        0x228B, // supsetneq
        0x2ACC, // supsetneqq
        0x2AC8, // supsim
        0x2AD4, // supsub
        0x2AD6, // supsup
    ],
};

// What `s` and `rest` stand for, where `rest` begins with a byte from 75 to 76 hex and the fourth byte of the name is one from 73 to FF hex.
fn lower_s_5_3(rest: &[u8]) -> Option<DecodedEntityValue>
    ensures { meaning_bytes result ≡ lookup (having 3 (0x73, 0xFF) (having 1 (0x75, 0x76) lower-s)) (0x73 ∷ rest.now) }
{
    LOWER_S_5_3.find(rest)
}

// What `s` and `rest` stand for, where `rest` begins with a byte from 75 to 76 hex.
fn lower_s_5(rest: &[u8]) -> Option<DecodedEntityValue>
    ensures { meaning_bytes result ≡ lookup (having 1 (0x75, 0x76) lower-s) (0x73 ∷ rest.now) }
{
    let fourth = names_search::byte_at(rest, 2);
    if fourth < b'e' {
        return lower_s_5_1(rest);
    }
    if fourth < b's' {
        return lower_s_5_2(rest);
    }
    lower_s_5_3(rest)
}

const LOWER_S_6: Table<'static> = Table {
    names: b"\
        wArrwarhkwarrwarrowwnwarzlig",
    lengths: &[4, 5, 4, 6, 5, 4],
    values: &[
        0x21D9, // swArr
        0x2926, // swarhk
        0x2199, // swarr
        0x2199, // swarrow
        0x292A, // swnwar
        0x00DF, // szlig
    ],
};

// What `s` and `rest` stand for, where `rest` begins with a byte from 77 to FF hex.
fn lower_s_6(rest: &[u8]) -> Option<DecodedEntityValue>
    ensures { meaning_bytes result ≡ lookup (having 1 (0x77, 0xFF) lower-s) (0x73 ∷ rest.now) }
{
    LOWER_S_6.find(rest)
}

// What `s` and `rest` stand for.
pub fn lower_s(rest: &[u8]) -> Option<DecodedEntityValue>
    ensures { meaning_bytes result ≡ lookup lower-s (0x73 ∷ rest.now) }
{
    let second = names_search::byte_at(rest, 0);
    if second < b'h' {
        return lower_s_1(rest);
    }
    if second < b'o' {
        return lower_s_2(rest);
    }
    if second < b't' {
        return lower_s_3(rest);
    }
    if second < b'u' {
        return lower_s_4(rest);
    }
    if second < b'w' {
        return lower_s_5(rest);
    }
    lower_s_6(rest)
}

const LOWER_T_1: Table<'static> = Table {
    names: b"\
        argetaubrkcaroncedilcydotelrecfrhere4hereforehetahetasymhetavhickapproxhicksimhinsphkaphksimhornildeimes\
        imesbimesbarimesdint",
    lengths: &[
        5, 2, 3, 5, 5, 2, 3, 5, 2, 5, 8, 4, 7, 5, 10, 7, 5, 4, 5, 4, 4, 4, 5, 7, 5, 3,
    ],
    values: &[
        0x2316, // target
        0x03C4, // tau
        0x23B4, // tbrk
        0x0165, // tcaron
        0x0163, // tcedil
        0x0442, // tcy
        0x20DB, // tdot
        0x2315, // telrec
        0xE131, // tfr
        0x2234, // there4
        0x2234, // therefore
        0x03B8, // theta
        0x03D1, // thetasym
        0x03D1, // thetav
        0x2248, // thickapprox
        0x223C, // thicksim
        0x2009, // thinsp
        0x2248, // thkap
        0x223C, // thksim
        0x00FE, // thorn
        0x02DC, // tilde
        0x00D7, // times
        0x22A0, // timesb
        0x2A31, // timesbar
        0x2A30, // timesd
        0x222D, // tint
    ],
};

// What `t` and `rest` stand for, where `rest` begins with a byte from 00 to 6E hex.
fn lower_t_1(rest: &[u8]) -> Option<DecodedEntityValue>
    ensures { meaning_bytes result ≡ lookup (having 1 (0x00, 0x6E) lower-t) (0x74 ∷ rest.now) }
{
    LOWER_T_1.find(rest)
}

const LOWER_T_2: Table<'static> = Table {
    names: b"\
        oeaopopbotopciropfopforkosaprimeraderiangleriangledownriangleleftrianglelefteqriangleqriangleright\
        rianglerighteqridotrieriminusriplusrisbritimerpeziumscrscyshcystrokwixtwoheadleftarrowwoheadrightarrow",
    lengths: &[
        3, 2, 5, 5, 3, 6, 3, 5, 4, 7, 11, 11, 13, 8, 12, 14, 5, 3, 7, 6, 4, 6, 7, 3, 3, 4, 5, 4,
        15, 16,
    ],
    values: &[
        0x2928, // toea
        0x22A4, // top
        0x2336, // topbot
        0x2AF1, // topcir
        0xE165, // topf
        0x2ADA, // topfork
        0x2929, // tosa
        0x2034, // tprime
        0x2122, // trade
        0x25B5, // triangle
        0x25BF, // triangledown
        0x25C3, // triangleleft
        0x22B4, // trianglelefteq
        0x225C, // triangleq
        0x25B9, // triangleright
        0x22B5, // trianglerighteq
        0x25EC, // tridot
        0x225C, // trie
        0x2A3A, // triminus
        0x2A39, // triplus
        0x29CD, // trisb
        0x2A3B, // tritime
        0x23E2, // trpezium
        0xE0C9, // tscr
        0x0446, // tscy
        0x045B, // tshcy
        0x0167, // tstrok
        0x226C, // twixt
        0x219E, // twoheadleftarrow
        0x21A0, // twoheadrightarrow
    ],
};

// What `t` and `rest` stand for, where `rest` begins with a byte from 6F to FF hex.
fn lower_t_2(rest: &[u8]) -> Option<DecodedEntityValue>
    ensures { meaning_bytes result ≡ lookup (having 1 (0x6F, 0xFF) lower-t) (0x74 ∷ rest.now) }
{
    LOWER_T_2.find(rest)
}

// What `t` and `rest` stand for.
pub fn lower_t(rest: &[u8]) -> Option<DecodedEntityValue>
    ensures { meaning_bytes result ≡ lookup lower-t (0x74 ∷ rest.now) }
{
    let second = names_search::byte_at(rest, 0);
    if second < b'o' {
        return lower_t_1(rest);
    }
    lower_t_2(rest)
}

const LOWER_U_1: Table<'static> = Table {
    names: b"\
        ArrHaracutearrbrcybrevecirccydarrdblacdharfishtfrgraveharlharrhblklcornlcornerlcropltrimacrmlogonopf",
    lengths: &[
        3, 3, 5, 3, 4, 5, 4, 2, 4, 5, 4, 5, 2, 5, 4, 4, 4, 5, 7, 5, 4, 4, 2, 4, 3,
    ],
    values: &[
        0x21D1, // uArr
        0x2963, // uHar
        0x00FA, // uacute
        0x2191, // uarr
        0x045E, // ubrcy
        0x016D, // ubreve
        0x00FB, // ucirc
        0x0443, // ucy
        0x21C5, // udarr
        0x0171, // udblac
        0x296E, // udhar
        0x297E, // ufisht
        0xE132, // ufr
        0x00F9, // ugrave
        0x21BF, // uharl
        0x21BE, // uharr
        0x2580, // uhblk
        0x231C, // ulcorn
        0x231C, // ulcorner
        0x230F, // ulcrop
        0x25F8, // ultri
        0x016B, // umacr
        0x00A8, // uml
        0x0173, // uogon
        0xE166, // uopf
    ],
};

// What `u` and `rest` stand for, where `rest` begins with a byte from 00 to 6F hex.
fn lower_u_1(rest: &[u8]) -> Option<DecodedEntityValue>
    ensures { meaning_bytes result ≡ lookup (having 1 (0x00, 0x6F) lower-u) (0x75 ∷ rest.now) }
{
    LOWER_U_1.find(rest)
}

const LOWER_U_2: Table<'static> = Table {
    names: b"\
        parrowpdownarrowpharpoonleftpharpoonrightpluspsipsihpsilonpuparrowsrcornrcornerrcropringrtriscrtdottilde\
        tritrifuarrumlwangle",
    lengths: &[
        6, 10, 12, 13, 4, 3, 4, 6, 9, 5, 7, 5, 4, 4, 3, 4, 5, 3, 4, 4, 3, 6,
    ],
    values: &[
        0x2191, // uparrow
        0x2195, // updownarrow
        0x21BF, // upharpoonleft
        0x21BE, // upharpoonright
        0x228E, // uplus
        0x03C5, // upsi
        0x03D2, // upsih
        0x03C5, // upsilon
        0x21C8, // upuparrows
        0x231D, // urcorn
        0x231D, // urcorner
        0x230E, // urcrop
        0x016F, // uring
        0x25F9, // urtri
        0xE0CA, // uscr
        0x22F0, // utdot
        0x0169, // utilde
        0x25B5, // utri
        0x25B4, // utrif
        0x21C8, // uuarr
        0x00FC, // uuml
        0x29A7, // uwangle
    ],
};

// What `u` and `rest` stand for, where `rest` begins with a byte from 70 to FF hex.
fn lower_u_2(rest: &[u8]) -> Option<DecodedEntityValue>
    ensures { meaning_bytes result ≡ lookup (having 1 (0x70, 0xFF) lower-u) (0x75 ∷ rest.now) }
{
    LOWER_U_2.find(rest)
}

// What `u` and `rest` stand for.
pub fn lower_u(rest: &[u8]) -> Option<DecodedEntityValue>
    ensures { meaning_bytes result ≡ lookup lower-u (0x75 ∷ rest.now) }
{
    let second = names_search::byte_at(rest, 0);
    if second < b'p' {
        return lower_u_1(rest);
    }
    lower_u_2(rest)
}

const LOWER_V_1: Table<'static> = Table {
    names: b"\
        ArrBarBarvDashangrtarepsilonarkappaarnothingarphiarpiarproptoarrarrhoarsigmaarsubsetneqarsubsetneqq\
        arsupsetneqarsupsetneqqarthetaartriangleleftartrianglerightcydasheeeebareeeqelliperbarertfrltri",
    lengths: &[
        3, 3, 4, 4, 5, 9, 7, 9, 5, 4, 8, 3, 5, 7, 11, 12, 11, 12, 7, 14, 15, 2, 4, 2, 5, 4, 5, 5,
        3, 2, 4,
    ],
    values: &[
        0x21D5, // vArr
        0x2AE8, // vBar
        0x2AE9, // vBarv
        0x22A8, // vDash
        0x299C, // vangrt
        0x03F5, // varepsilon
        0x03F0, // varkappa
        0x2205, // varnothing
        0x03D5, // varphi
        0x03D6, // varpi
        0x221D, // varpropto
        0x2195, // varr
        0x03F1, // varrho
        0x03C2, // varsigma
        0xF042, // varsubsetneq
        0xF043, // varsubsetneqq
        0xF044, // varsupsetneq
        0xF045, // varsupsetneqq
        0x03D1, // vartheta
        0x22B2, // vartriangleleft
        0x22B3, // vartriangleright
        0x0432, // vcy
        0x22A2, // vdash
        0x2228, // vee
        0x22BB, // veebar
        0x225A, // veeeq
        0x22EE, // vellip
        0x007C, // verbar
        0x007C, // vert
        0xE133, // vfr
        0x22B2, // vltri
    ],
};

// What `v` and `rest` stand for, where `rest` begins with a byte from 00 to 6D hex.
fn lower_v_1(rest: &[u8]) -> Option<DecodedEntityValue>
    ensures { meaning_bytes result ≡ lookup (having 1 (0x00, 0x6D) lower-v) (0x76 ∷ rest.now) }
{
    LOWER_V_1.find(rest)
}

const LOWER_V_2: Table<'static> = Table {
    names: b"\
        nsubnsupopfproprtriscrsubnEsubnesupnEsupnezigzag",
    lengths: &[4, 4, 3, 4, 4, 3, 5, 5, 5, 5, 6],
    values: &[
        0xF00F, // vnsub
        0xF012, // vnsup
        0xE167, // vopf
        0x221D, // vprop
        0x22B3, // vrtri
        0xE0CB, // vscr
        0xF043, // vsubnE
        0xF042, // vsubne
        0xF045, // vsupnE
        0xF044, // vsupne
        0x299A, // vzigzag
    ],
};

// What `v` and `rest` stand for, where `rest` begins with a byte from 6E to FF hex.
fn lower_v_2(rest: &[u8]) -> Option<DecodedEntityValue>
    ensures { meaning_bytes result ≡ lookup (having 1 (0x6E, 0xFF) lower-v) (0x76 ∷ rest.now) }
{
    LOWER_V_2.find(rest)
}

// What `v` and `rest` stand for.
pub fn lower_v(rest: &[u8]) -> Option<DecodedEntityValue>
    ensures { meaning_bytes result ≡ lookup lower-v (0x76 ∷ rest.now) }
{
    let second = names_search::byte_at(rest, 0);
    if second < b'n' {
        return lower_v_1(rest);
    }
    lower_v_2(rest)
}

const LOWER_W: Table<'static> = Table {
    names: b"\
        circedbaredgeedgeqeierpfropfprreathscr",
    lengths: &[4, 5, 4, 5, 5, 2, 3, 1, 1, 5, 3],
    values: &[
        0x0175, // wcirc
        0x2A5F, // wedbar
        0x2227, // wedge
        0x2259, // wedgeq
        0x2118, // weierp
        0xE134, // wfr
        0xE168, // wopf
        0x2118, // wp
        0x2240, // wr
        0x2240, // wreath
        0xE0CC, // wscr
    ],
};

// What `w` and `rest` stand for.
pub fn lower_w(rest: &[u8]) -> Option<DecodedEntityValue>
    ensures { meaning_bytes result ≡ lookup lower-w (0x77 ∷ rest.now) }
{
    LOWER_W.find(rest)
}

const LOWER_X: Table<'static> = Table {
    names: b"\
        capcirccupdtrifrhArrharrilArrlarrmapnisodotopfoplusotimerArrrarrscrsqcupuplusutriveewedge",
    lengths: &[
        3, 4, 3, 4, 2, 4, 4, 1, 4, 4, 3, 3, 4, 3, 5, 5, 4, 4, 3, 5, 5, 4, 3, 5,
    ],
    values: &[
        0x22C2, // xcap
        0x25EF, // xcirc
        0x22C3, // xcup
        0x25BD, // xdtri
        0xE135, // xfr
        0x27FA, // xhArr
        0x27F7, // xharr
        0x03BE, // xi
        0x27F8, // xlArr
        0x27F5, // xlarr
        0x27FC, // xmap
        0x22FB, // xnis
        0x2A00, // xodot
        0xE169, // xopf
        0x2A01, // xoplus
        0x2A02, // xotime
        0x27F9, // xrArr
        0x27F6, // xrarr
        0xE0CD, // xscr
        0x2A06, // xsqcup
        0x2A04, // xuplus
        0x25B3, // xutri
        0x22C1, // xvee
        0x22C0, // xwedge
    ],
};

// What `x` and `rest` stand for.
pub fn lower_x(rest: &[u8]) -> Option<DecodedEntityValue>
    ensures { meaning_bytes result ≡ lookup lower-x (0x78 ∷ rest.now) }
{
    LOWER_X.find(rest)
}

const LOWER_Y: Table<'static> = Table {
    names: b"\
        acuteacycirccyenfricyopfscrucyuml",
    lengths: &[5, 3, 4, 2, 2, 2, 3, 3, 3, 3, 3],
    values: &[
        0x00FD, // yacute
        0x044F, // yacy
        0x0177, // ycirc
        0x044B, // ycy
        0x00A5, // yen
        0xE136, // yfr
        0x0457, // yicy
        0xE16A, // yopf
        0xE0CE, // yscr
        0x044E, // yucy
        0x00FF, // yuml
    ],
};

// What `y` and `rest` stand for.
pub fn lower_y(rest: &[u8]) -> Option<DecodedEntityValue>
    ensures { meaning_bytes result ≡ lookup lower-y (0x79 ∷ rest.now) }
{
    LOWER_Y.find(rest)
}

const LOWER_Z: Table<'static> = Table {
    names: b"\
        acutecaroncydoteetrfetafrhcyigrarropfscrwjwnj",
    lengths: &[5, 5, 2, 3, 5, 3, 2, 3, 6, 3, 3, 2, 3],
    values: &[
        0x017A, // zacute
        0x017E, // zcaron
        0x0437, // zcy
        0x017C, // zdot
        0x2128, // zeetrf
        0x03B6, // zeta
        0xE137, // zfr
        0x0436, // zhcy
        0x21DD, // zigrarr
        0xE16B, // zopf
        0xE0CF, // zscr
        0x200D, // zwj
        0x200C, // zwnj
    ],
};

// What `z` and `rest` stand for.
pub fn lower_z(rest: &[u8]) -> Option<DecodedEntityValue>
    ensures { meaning_bytes result ≡ lookup lower-z (0x7A ∷ rest.now) }
{
    LOWER_Z.find(rest)
}
