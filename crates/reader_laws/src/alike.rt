// Types of which the same words give values that are alike.
ghost use Rattle.std.specs.Int.{w8, w16, w32, w64};
ghost use Rattle.reader_laws.specs.Alike.{Likeness, GivesOne, SharesZero, same, single, same_text, options_alike, each_alike, inside_alike, pairs_alike, triples_alike, quadruples_alike, quintuples_alike, sextuples_alike};
ghost use Rattle.reader_laws.specs.AlikeProofs.{unsigned_one, signed_one, boolean_one, text_one, character_one, nothing_one, around_one, optional_one, pair_one, triple_one, quadruple_one, quintuple_one, sextuple_one};
ghost use Rattle.reader_laws.specs.ListProofs.{all_one, counted_one, one_skipped_one, all_skipped_one};
ghost use Rattle.reader_laws.specs.ZeroProofs.{same_zero, inside_zero, text_zero, items_zero, pair_zero, triple_zero, quadruple_zero, quintuple_zero, to_zero_one};

use whiteread::adapters::{Lengthed, Skip, SkipAll, WithCheapError, Zeroed};
use whiteread::stream::{Eats, FromStream, IsZero};

/// A type of which the same words give values that are alike, or the same error. Values are alike where they are
/// equal, wherever in memory they are kept.
pub trait Alike: FromStream {
    ghost alike: { Likeness Self };

    ghost one: { GivesOne alike Self.reading.reads };
}

/// Of values that are alike both end a list, or neither does.
pub trait AlikeZero: Alike + IsZero {
    ghost shares_zero: { SharesZero Self.alike Self.zero };
}

impl Alike for u8 {
    ghost alike = { same };

    ghost one = { unsigned_one 8 };
}

impl AlikeZero for u8 {
    ghost shares_zero = { same_zero _ };
}

impl Alike for u16 {
    ghost alike = { same };

    ghost one = { unsigned_one 16 };
}

impl AlikeZero for u16 {
    ghost shares_zero = { same_zero _ };
}

impl Alike for u32 {
    ghost alike = { same };

    ghost one = { unsigned_one 32 };
}

impl AlikeZero for u32 {
    ghost shares_zero = { same_zero _ };
}

impl Alike for u64 {
    ghost alike = { same };

    ghost one = { unsigned_one 64 };
}

impl AlikeZero for u64 {
    ghost shares_zero = { same_zero _ };
}

impl Alike for usize {
    ghost alike = { same };

    ghost one = { unsigned_one 64 };
}

impl AlikeZero for usize {
    ghost shares_zero = { same_zero _ };
}

impl Alike for i8 {
    ghost alike = { same };

    ghost one = { signed_one w8 };
}

impl AlikeZero for i8 {
    ghost shares_zero = { same_zero _ };
}

impl Alike for i16 {
    ghost alike = { same };

    ghost one = { signed_one w16 };
}

impl AlikeZero for i16 {
    ghost shares_zero = { same_zero _ };
}

impl Alike for i32 {
    ghost alike = { same };

    ghost one = { signed_one w32 };
}

impl AlikeZero for i32 {
    ghost shares_zero = { same_zero _ };
}

impl Alike for i64 {
    ghost alike = { same };

    ghost one = { signed_one w64 };
}

impl AlikeZero for i64 {
    ghost shares_zero = { same_zero _ };
}

impl Alike for isize {
    ghost alike = { same };

    ghost one = { signed_one w64 };
}

impl AlikeZero for isize {
    ghost shares_zero = { same_zero _ };
}

impl Alike for bool {
    ghost alike = { same };

    ghost one = { boolean_one };
}

impl AlikeZero for bool {
    ghost shares_zero = { same_zero _ };
}

impl Alike for char {
    ghost alike = { same };

    ghost one = { character_one };
}

impl AlikeZero for char {
    ghost shares_zero = { same_zero _ };
}

impl Alike for String {
    ghost alike = { same_text };

    ghost one = { text_one };
}

impl AlikeZero for String {
    ghost shares_zero = { text_zero };
}

impl Alike for () {
    ghost alike = { same };

    ghost one = { nothing_one };
}

impl<A: Alike> Alike for (A,) {
    ghost alike = { inside_alike (λ one. one.0) A.alike };

    ghost one = { around_one (λ one. one.0) A.alike A.reading A.one };
}

impl<A: AlikeZero> AlikeZero for (A,) {
    ghost shares_zero = { inside_zero (λ one. one.0) A.alike A.zero A.shares_zero };
}

impl<A: Alike, B: Alike> Alike for (A, B) {
    ghost alike = { pairs_alike A.alike B.alike };

    ghost one = { pair_one A.alike B.alike A.reading B.reading A.one B.one };
}

impl<A: AlikeZero, B: AlikeZero> AlikeZero for (A, B) {
    ghost shares_zero = { pair_zero A.alike B.alike A.zero B.zero A.shares_zero B.shares_zero };
}

impl<A: Alike, B: Alike, C: Alike> Alike for (A, B, C) {
    ghost alike = { triples_alike A.alike B.alike C.alike };

    ghost one = { triple_one A.alike B.alike C.alike A.reading B.reading C.reading A.one B.one C.one };
}

impl<A: AlikeZero, B: AlikeZero, C: AlikeZero> AlikeZero for (A, B, C) {
    ghost shares_zero = { triple_zero A.alike B.alike C.alike A.zero B.zero C.zero A.shares_zero B.shares_zero C.shares_zero };
}

impl<A: Alike, B: Alike, C: Alike, D: Alike> Alike for (A, B, C, D) {
    ghost alike = { quadruples_alike A.alike B.alike C.alike D.alike };

    ghost one = { quadruple_one A.alike B.alike C.alike D.alike A.reading B.reading C.reading D.reading A.one B.one C.one D.one };
}

impl<A: AlikeZero, B: AlikeZero, C: AlikeZero, D: AlikeZero> AlikeZero for (A, B, C, D) {
    ghost shares_zero = { quadruple_zero A.alike B.alike C.alike D.alike A.zero B.zero C.zero D.zero A.shares_zero B.shares_zero C.shares_zero D.shares_zero };
}

impl<A: Alike, B: Alike, C: Alike, D: Alike, E: Alike> Alike for (A, B, C, D, E) {
    ghost alike = { quintuples_alike A.alike B.alike C.alike D.alike E.alike };

    ghost one = { quintuple_one A.alike B.alike C.alike D.alike E.alike A.reading B.reading C.reading D.reading E.reading A.one B.one C.one D.one E.one };
}

impl<A: AlikeZero, B: AlikeZero, C: AlikeZero, D: AlikeZero, E: AlikeZero> AlikeZero
    for (A, B, C, D, E) {
    ghost shares_zero = { quintuple_zero A.alike B.alike C.alike D.alike E.alike A.zero B.zero C.zero D.zero E.zero A.shares_zero B.shares_zero C.shares_zero D.shares_zero E.shares_zero };
}

impl<A: Alike, B: Alike, C: Alike, D: Alike, E: Alike, F: Alike> Alike for (A, B, C, D, E, F) {
    ghost alike = { sextuples_alike A.alike B.alike C.alike D.alike E.alike F.alike };

    ghost one = { sextuple_one A.alike B.alike C.alike D.alike E.alike F.alike A.reading B.reading C.reading D.reading E.reading F.reading A.one B.one C.one D.one E.one F.one };
}

impl<T: Alike> Alike for Option<T> {
    ghost alike = { options_alike T.alike };

    ghost one = { optional_one T.alike T.reading T.one };
}

impl<T: Alike + Eats> Alike for Vec<T> {
    ghost alike = { inside_alike (λ values. values.items) (each_alike T.alike) };

    ghost one = { all_one T.alike T.reading T.one };
}

impl Alike for Skip {
    ghost alike = { single };

    ghost one = { one_skipped_one };
}

impl Alike for SkipAll {
    ghost alike = { single };

    ghost one = { all_skipped_one };
}

impl<T: Alike + Eats> Alike for Lengthed<T> {
    ghost alike = { inside_alike (λ values. values.0.items) (each_alike T.alike) };

    ghost one = { counted_one (λ values. values.0.items) T.alike T.reading T.one };
}

impl<T: Alike + Eats> AlikeZero for Lengthed<T> {
    ghost shares_zero = { items_zero (λ values. values.0.items) T.alike };
}

impl<T: AlikeZero + Eats> Alike for Zeroed<T> {
    ghost alike = { inside_alike (λ values. values.0.items) (each_alike T.alike) };

    ghost one = { to_zero_one (λ values. values.0.items) T.zero T.alike T.reading T.one T.shares_zero };
}

impl<T: Alike> Alike for WithCheapError<T> {
    ghost alike = { inside_alike (λ value. value.0) T.alike };

    ghost one = { around_one (λ value. value.0) T.alike T.reading T.one };
}
