// The lines of the worked theories, and beside each its words, in five parts.
pub(crate) fn first_lines() -> &'static [(&'static str, &'static str)] {
    &FIRST
}

pub(crate) fn second_lines() -> &'static [(&'static str, &'static str)] {
    &SECOND
}

pub(crate) fn third_lines() -> &'static [(&'static str, &'static str)] {
    &THIRD
}

pub(crate) fn fourth_lines() -> &'static [(&'static str, &'static str)] {
    &FOURTH
}

pub(crate) fn fifth_lines() -> &'static [(&'static str, &'static str)] {
    &FIFTH
}

static FIRST: [(&str, &str); 29] = [
    ("terminals z s", "terminals z s"),
    ("syntax", "syntax"),
    ("n ::= z | s n", "n ::= z | s n"),
    ("judgment plus: n + n = n", "judgment plus : n + n = n"),
    ("---- plus-z", "---- plus-z"),
    ("z + n = n", "z + n = n"),
    ("n1 + n2 = n3", "n1 + n2 = n3"),
    ("---- plus-s", "---- plus-s"),
    ("s n1 + n2 = s n3", "s n1 + n2 = s n3"),
    ("terminals fn unit value", "terminals fn unit value"),
    ("T ::= unit | T -> T", "T ::= unit | T -> T"),
    (
        "t ::= fn x : T => t[x] | t t | x | unit",
        "t ::= fn x : T => t [ x ] | t t | x | unit",
    ),
    ("Gamma ::= * | Gamma, x : T", "Gamma ::= * | Gamma , x : T"),
    (
        "judgment typing: Gamma |- t : T",
        "judgment typing : Gamma |- t : T",
    ),
    ("assumes Gamma", "assumes Gamma"),
    ("---- t-var", "---- t-var"),
    ("Gamma, x : T |- x : T", "Gamma , x : T |- x : T"),
    ("---- t-unit", "---- t-unit"),
    ("Gamma |- unit : unit", "Gamma |- unit : unit"),
    (
        "Gamma, x : T1 |- t[x] : T2",
        "Gamma , x : T1 |- t [ x ] : T2",
    ),
    ("---- t-fn", "---- t-fn"),
    (
        "Gamma |- fn x : T1 => t[x] : T1 -> T2",
        "Gamma |- fn x : T1 => t [ x ] : T1 -> T2",
    ),
    ("Gamma |- t1 : T1 -> T2", "Gamma |- t1 : T1 -> T2"),
    ("Gamma |- t2 : T1", "Gamma |- t2 : T1"),
    ("---- t-app", "---- t-app"),
    ("Gamma |- t1 t2 : T2", "Gamma |- t1 t2 : T2"),
    ("judgment value: t value", "judgment value : t value"),
    ("---- v-unit", "---- v-unit"),
    ("unit value", "unit value"),
];

static SECOND: [(&str, &str); 29] = [
    ("---- v-fn", "---- v-fn"),
    ("fn x : T => t[x] value", "fn x : T => t [ x ] value"),
    ("judgment step: t -> t", "judgment step : t -> t"),
    ("t1 -> t1'", "t1 -> t1'"),
    ("---- s-app1", "---- s-app1"),
    ("t1 t2 -> t1' t2", "t1 t2 -> t1' t2"),
    ("t2 value", "t2 value"),
    ("---- s-beta", "---- s-beta"),
    (
        "(fn x : T => t1[x]) t2 -> t1[t2]",
        "( fn x : T => t1 [ x ] ) t2 -> t1 [ t2 ]",
    ),
    ("judgment same: T = T", "judgment same : T = T"),
    ("---- refl", "---- refl"),
    ("T = T", "T = T"),
    (
        "theorem unique: assumes Gamma forall d: Gamma |- t : T forall e: Gamma |- t : T' exists T = T'.",
        "theorem unique : assumes Gamma forall d : Gamma |- t : T forall e : Gamma |- t : T' exists T = T' .",
    ),
    ("proof by induction on d:", "proof by induction on d :"),
    ("case rule", "case rule"),
    ("_: Gamma', x : T |- x : T", "_ : Gamma' , x : T |- x : T"),
    ("is", "is"),
    ("inversion on e", "inversion on e"),
    ("proof by rule refl", "proof by rule refl"),
    ("end case", "end case"),
    ("_: Gamma |- unit : unit", "_ : Gamma |- unit : unit"),
    (
        "d1: Gamma, x : T1 |- t1[x] : T2",
        "d1 : Gamma , x : T1 |- t1 [ x ] : T2",
    ),
    (
        "_: Gamma |- fn x : T1 => t1[x] : T1 -> T2",
        "_ : Gamma |- fn x : T1 => t1 [ x ] : T1 -> T2",
    ),
    (
        "e1: Gamma, x : T1 |- t1[x] : T3",
        "e1 : Gamma , x : T1 |- t1 [ x ] : T3",
    ),
    (
        "_: Gamma |- fn x : T1 => t1[x] : T1 -> T3",
        "_ : Gamma |- fn x : T1 => t1 [ x ] : T1 -> T3",
    ),
    (
        "g: T2 = T3 by induction hypothesis on d1, e1",
        "g : T2 = T3 by induction hypothesis on d1 , e1",
    ),
    ("inversion on g", "inversion on g"),
    ("_: T2 = T2", "_ : T2 = T2"),
    ("d1: Gamma |- t1 : T2 -> T", "d1 : Gamma |- t1 : T2 -> T"),
];

static THIRD: [(&str, &str); 29] = [
    ("d2: Gamma |- t2 : T2", "d2 : Gamma |- t2 : T2"),
    ("_: Gamma |- t1 t2 : T", "_ : Gamma |- t1 t2 : T"),
    ("e1: Gamma |- t1 : T3 -> T'", "e1 : Gamma |- t1 : T3 -> T'"),
    ("e2: Gamma |- t2 : T3", "e2 : Gamma |- t2 : T3"),
    ("_: Gamma |- t1 t2 : T'", "_ : Gamma |- t1 t2 : T'"),
    (
        "g: T2 -> T = T3 -> T' by induction hypothesis on d1, e1",
        "g : T2 -> T = T3 -> T' by induction hypothesis on d1 , e1",
    ),
    ("_: T2 -> T = T2 -> T", "_ : T2 -> T = T2 -> T"),
    ("end induction", "end induction"),
    ("end theorem", "end theorem"),
    (
        "theorem preservation: forall d: * |- t : T forall e: t -> t' exists * |- t' : T.",
        "theorem preservation : forall d : * |- t : T forall e : t -> t' exists * |- t' : T .",
    ),
    ("proof by induction on e:", "proof by induction on e :"),
    ("e1: t1 -> t1'", "e1 : t1 -> t1'"),
    ("_: t1 t2 -> t1' t2", "_ : t1 t2 -> t1' t2"),
    ("inversion on d", "inversion on d"),
    ("d1: * |- t1 : T1 -> T", "d1 : * |- t1 : T1 -> T"),
    ("d2: * |- t2 : T1", "d2 : * |- t2 : T1"),
    ("_: * |- t1 t2 : T", "_ : * |- t1 t2 : T"),
    (
        "d3: * |- t1' : T1 -> T by induction hypothesis on d1, e1",
        "d3 : * |- t1' : T1 -> T by induction hypothesis on d1 , e1",
    ),
    (
        "proof by rule t-app on d3, d2",
        "proof by rule t-app on d3 , d2",
    ),
    ("v: t2 value", "v : t2 value"),
    (
        "_: (fn x : T1 => t1[x]) t2 -> t1[t2]",
        "_ : ( fn x : T1 => t1 [ x ] ) t2 -> t1 [ t2 ]",
    ),
    (
        "d1: * |- fn x : T1 => t1[x] : T2 -> T",
        "d1 : * |- fn x : T1 => t1 [ x ] : T2 -> T",
    ),
    ("d2: * |- t2 : T2", "d2 : * |- t2 : T2"),
    (
        "_: * |- (fn x : T1 => t1[x]) t2 : T",
        "_ : * |- ( fn x : T1 => t1 [ x ] ) t2 : T",
    ),
    ("inversion on d1", "inversion on d1"),
    (
        "d3: *, x : T1 |- t1[x] : T",
        "d3 : * , x : T1 |- t1 [ x ] : T",
    ),
    (
        "_: * |- fn x : T1 => t1[x] : T1 -> T",
        "_ : * |- fn x : T1 => t1 [ x ] : T1 -> T",
    ),
    (
        "proof by substitution on d3, d2",
        "proof by substitution on d3 , d2",
    ),
    ("terminals fn", "terminals fn"),
];

static FOURTH: [(&str, &str); 29] = [
    ("t ::= fn x => t[x] | x", "t ::= fn x => t [ x ] | x"),
    ("judgment same: t = t", "judgment same : t = t"),
    ("t = t", "t = t"),
    (
        "theorem meet: forall d: fn x => fn x' => t[x, x'] = fn x => fn x' => t[x', x] exists fn x => t[x, x] = fn x => t[x, x].",
        "theorem meet : forall d : fn x => fn x' => t [ x , x' ] = fn x => fn x' => t [ x' , x ] exists fn x => t [ x , x ] = fn x => t [ x , x ] .",
    ),
    (
        "_: fn x => fn x' => t1 = fn x => fn x' => t1",
        "_ : fn x => fn x' => t1 = fn x => fn x' => t1",
    ),
    ("terminals b f ok", "terminals b f ok"),
    ("t ::= x | b | f t", "t ::= x | b | f t"),
    ("Gamma ::= * | Gamma, x ok", "Gamma ::= * | Gamma , x ok"),
    (
        "judgment okay: Gamma |- t ok",
        "judgment okay : Gamma |- t ok",
    ),
    ("---- o-var", "---- o-var"),
    ("Gamma, x ok |- x ok", "Gamma , x ok |- x ok"),
    ("---- o-b", "---- o-b"),
    ("Gamma |- b ok", "Gamma |- b ok"),
    ("Gamma |- t ok", "Gamma |- t ok"),
    ("---- o-f", "---- o-f"),
    ("Gamma |- f t ok", "Gamma |- f t ok"),
    (
        "theorem keep: assumes Gamma forall d: Gamma |- t ok exists Gamma |- t ok.",
        "theorem keep : assumes Gamma forall d : Gamma |- t ok exists Gamma |- t ok .",
    ),
    ("_: Gamma', x ok |- x ok", "_ : Gamma' , x ok |- x ok"),
    ("proof by rule o-var", "proof by rule o-var"),
    ("_: Gamma |- b ok", "_ : Gamma |- b ok"),
    ("proof by rule o-b", "proof by rule o-b"),
    ("d1: Gamma |- t1 ok", "d1 : Gamma |- t1 ok"),
    ("_: Gamma |- f t1 ok", "_ : Gamma |- f t1 ok"),
    (
        "w: Gamma, x ok |- t1 ok by weakening on d1",
        "w : Gamma , x ok |- t1 ok by weakening on d1",
    ),
    (
        "v: Gamma, x ok |- t1 ok by induction hypothesis on w",
        "v : Gamma , x ok |- t1 ok by induction hypothesis on w",
    ),
    (
        "u: Gamma |- b ok by rule o-b",
        "u : Gamma |- b ok by rule o-b",
    ),
    (
        "k: Gamma |- t1 ok by substitution on v, u",
        "k : Gamma |- t1 ok by substitution on v , u",
    ),
    ("proof by rule o-f on k", "proof by rule o-f on k"),
    ("terminals top", "terminals top"),
];

static FIFTH: [(&str, &str); 29] = [
    ("T ::= X | top | T -> T", "T ::= X | top | T -> T"),
    ("t ::= x", "t ::= x"),
    (
        "Gamma ::= * | Gamma, X <: T | Gamma, x : T",
        "Gamma ::= * | Gamma , X <: T | Gamma , x : T",
    ),
    (
        "judgment sub: Gamma |- T <: T",
        "judgment sub : Gamma |- T <: T",
    ),
    ("---- s-hyp", "---- s-hyp"),
    ("Gamma, X <: T |- X <: T", "Gamma , X <: T |- X <: T"),
    ("---- s-top", "---- s-top"),
    ("Gamma |- T <: top", "Gamma |- T <: top"),
    (
        "lemma swap: assumes Gamma forall d: Gamma, X <: T, x : X |- x : X exists Gamma, x : top, X <: T |- x : top.",
        "lemma swap : assumes Gamma forall d : Gamma , X <: T , x : X |- x : X exists Gamma , x : top , X <: T |- x : top .",
    ),
    ("proof by exchange on d", "proof by exchange on d"),
    ("end lemma", "end lemma"),
    (
        "lemma plus-zero: forall n exists n + z = n.",
        "lemma plus-zero : forall n exists n + z = n .",
    ),
    ("proof by induction on n:", "proof by induction on n :"),
    ("case z is", "case z is"),
    ("proof by rule plus-z", "proof by rule plus-z"),
    ("case s n1 is", "case s n1 is"),
    (
        "d1: n1 + z = n1 by induction hypothesis on n1",
        "d1 : n1 + z = n1 by induction hypothesis on n1",
    ),
    ("proof by rule plus-s on d1", "proof by rule plus-s on d1"),
    (
        "lemma succ: forall d: n1 + n2 = n3 exists n1 + s n2 = s n3.",
        "lemma succ : forall d : n1 + n2 = n3 exists n1 + s n2 = s n3 .",
    ),
    ("_: z + n = n", "_ : z + n = n"),
    ("d1: n1' + n2 = n3'", "d1 : n1' + n2 = n3'"),
    ("_: s n1' + n2 = s n3'", "_ : s n1' + n2 = s n3'"),
    (
        "d2: n1' + s n2 = s n3' by induction hypothesis on d1",
        "d2 : n1' + s n2 = s n3' by induction hypothesis on d1",
    ),
    ("proof by rule plus-s on d2", "proof by rule plus-s on d2"),
    (
        "theorem commute: forall d: n1 + n2 = n3 exists n2 + n1 = n3.",
        "theorem commute : forall d : n1 + n2 = n3 exists n2 + n1 = n3 .",
    ),
    ("_: z + n2 = n2", "_ : z + n2 = n2"),
    (
        "proof by lemma plus-zero on n2",
        "proof by lemma plus-zero on n2",
    ),
    (
        "d2: n2 + n1' = n3' by induction hypothesis on d1",
        "d2 : n2 + n1' = n3' by induction hypothesis on d1",
    ),
    ("proof by lemma succ on d2", "proof by lemma succ on d2"),
];
