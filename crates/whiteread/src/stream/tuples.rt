// Tuples, member by member.
ghost use Rattle.std.specs.Prelude.{false};
ghost use Rattle.whiteread.specs.Reading.{ReadCall};
ghost use Rattle.whiteread.specs.Reading.Tuples.{around, later, pair, triple, quadruple, quintuple, sextuple};
ghost use Rattle.whiteread.specs.Inner.ReadingProofs.{around_front, pair_front, triple_front, quadruple_front, quintuple_front, sextuple_front, eats_pair, eats_triple, eats_quadruple, eats_quintuple, eats_sextuple};

use crate::stream::{Eats, Error, FromStream, IsZero, Progress, Result, StrStream};
use std::alloc::Global;

/// Reads a part of a value that isn't its first. Where it finds too little, the value was begun.
pub(crate) fn read_later<T: FromStream, I: StrStream>(alloc: Global, it: &mut I) -> Result<T>
    ensures { ReadCall I.stream (later T.reading) it.old result it.new }
{
    match T::read(alloc, it) {
        Err(Error::TooShort(_)) => Err(Error::TooShort(Progress::Partial)),
        other => other,
    }
}

impl<A: FromStream> FromStream for (A,) {
    const REQUEST_CHEAP_ERROR: bool = false;

    ghost REQUEST_CHEAP_ERROR = { false };

    ghost reading = { around (λ one. one.0) A.reading };

    ghost is_reading = { around_front (λ one. one.0) A.reading A.is_reading };

    fn read<I: StrStream>(alloc: Global, it: &mut I) -> Result<Self> {
        Ok((A::read(alloc, it)?,))
    }
}

impl<A: Eats> Eats for (A,) {
    ghost eats = { A.eats };
}

impl<A: IsZero> IsZero for (A,) {
    ghost zero = { λ all. A.zero all.0 };

    fn is_zero(&self) -> bool {
        self.0.is_zero()
    }
}

impl<A: FromStream, B: FromStream> FromStream for (A, B) {
    const REQUEST_CHEAP_ERROR: bool = false;

    ghost REQUEST_CHEAP_ERROR = { false };

    ghost reading = { pair A.reading B.reading };

    ghost is_reading = { pair_front A.reading B.reading A.is_reading B.is_reading };

    fn read<I: StrStream>(alloc: Global, it: &mut I) -> Result<Self> {
        let a = A::read(alloc, it)?;
        let b = read_later::<B, I>(alloc, it)?;
        Ok((a, b))
    }
}

impl<A: Eats, B: FromStream> Eats for (A, B) {
    ghost eats = { eats_pair A.reading B.reading A.eats };
}

impl<A: IsZero, B: IsZero> IsZero for (A, B) {
    ghost zero = { λ all. A.zero all.0 × B.zero all.1 };

    fn is_zero(&self) -> bool {
        self.0.is_zero() && self.1.is_zero()
    }
}

impl<A: FromStream, B: FromStream, C: FromStream> FromStream for (A, B, C) {
    const REQUEST_CHEAP_ERROR: bool = false;

    ghost REQUEST_CHEAP_ERROR = { false };

    ghost reading = { triple A.reading B.reading C.reading };

    ghost is_reading = { triple_front A.reading B.reading C.reading A.is_reading B.is_reading C.is_reading };

    fn read<I: StrStream>(alloc: Global, it: &mut I) -> Result<Self> {
        let (a, b) = <(A, B)>::read(alloc, it)?;
        let c = read_later::<C, I>(alloc, it)?;
        Ok((a, b, c))
    }
}

impl<A: Eats, B: FromStream, C: FromStream> Eats for (A, B, C) {
    ghost eats = { eats_triple A.reading B.reading C.reading A.eats };
}

impl<A: IsZero, B: IsZero, C: IsZero> IsZero for (A, B, C) {
    ghost zero = { λ all. A.zero all.0 × B.zero all.1 × C.zero all.2 };

    fn is_zero(&self) -> bool {
        self.0.is_zero() && self.1.is_zero() && self.2.is_zero()
    }
}

impl<A: FromStream, B: FromStream, C: FromStream, D: FromStream> FromStream for (A, B, C, D) {
    const REQUEST_CHEAP_ERROR: bool = false;

    ghost REQUEST_CHEAP_ERROR = { false };

    ghost reading = { quadruple A.reading B.reading C.reading D.reading };

    ghost is_reading = { quadruple_front A.reading B.reading C.reading D.reading A.is_reading B.is_reading C.is_reading D.is_reading };

    fn read<I: StrStream>(alloc: Global, it: &mut I) -> Result<Self> {
        let (a, b, c) = <(A, B, C)>::read(alloc, it)?;
        let d = read_later::<D, I>(alloc, it)?;
        Ok((a, b, c, d))
    }
}

impl<A: Eats, B: FromStream, C: FromStream, D: FromStream> Eats for (A, B, C, D) {
    ghost eats = { eats_quadruple A.reading B.reading C.reading D.reading A.eats };
}

impl<A: IsZero, B: IsZero, C: IsZero, D: IsZero> IsZero for (A, B, C, D) {
    ghost zero = { λ all. A.zero all.0 × B.zero all.1 × C.zero all.2 × D.zero all.3 };

    fn is_zero(&self) -> bool {
        self.0.is_zero() && self.1.is_zero() && self.2.is_zero() && self.3.is_zero()
    }
}

impl<A: FromStream, B: FromStream, C: FromStream, D: FromStream, E: FromStream> FromStream
    for (A, B, C, D, E) {
    const REQUEST_CHEAP_ERROR: bool = false;

    ghost REQUEST_CHEAP_ERROR = { false };

    ghost reading = { quintuple A.reading B.reading C.reading D.reading E.reading };

    ghost is_reading = { quintuple_front A.reading B.reading C.reading D.reading E.reading A.is_reading B.is_reading C.is_reading D.is_reading E.is_reading };

    fn read<I: StrStream>(alloc: Global, it: &mut I) -> Result<Self> {
        let (a, b, c, d) = <(A, B, C, D)>::read(alloc, it)?;
        let e = read_later::<E, I>(alloc, it)?;
        Ok((a, b, c, d, e))
    }
}

impl<A: Eats, B: FromStream, C: FromStream, D: FromStream, E: FromStream> Eats for (A, B, C, D, E) {
    ghost eats = { eats_quintuple A.reading B.reading C.reading D.reading E.reading A.eats };
}

impl<A: IsZero, B: IsZero, C: IsZero, D: IsZero, E: IsZero> IsZero for (A, B, C, D, E) {
    ghost zero = { λ all. A.zero all.0 × B.zero all.1 × C.zero all.2 × D.zero all.3 × E.zero all.4 };

    fn is_zero(&self) -> bool {
        self.0.is_zero()
            && self.1.is_zero()
            && self.2.is_zero()
            && self.3.is_zero()
            && self.4.is_zero()
    }
}

impl<
    A: FromStream,
    B: FromStream,
    C: FromStream,
    D: FromStream,
    E: FromStream,
    F: FromStream,
> FromStream for (A, B, C, D, E, F) {
    const REQUEST_CHEAP_ERROR: bool = false;

    ghost REQUEST_CHEAP_ERROR = { false };

    ghost reading = { sextuple A.reading B.reading C.reading D.reading E.reading F.reading };

    ghost is_reading = { sextuple_front A.reading B.reading C.reading D.reading E.reading F.reading A.is_reading B.is_reading C.is_reading D.is_reading E.is_reading F.is_reading };

    fn read<I: StrStream>(alloc: Global, it: &mut I) -> Result<Self> {
        let (a, b, c, d, e) = <(A, B, C, D, E)>::read(alloc, it)?;
        let f = read_later::<F, I>(alloc, it)?;
        Ok((a, b, c, d, e, f))
    }
}

impl<A: Eats, B: FromStream, C: FromStream, D: FromStream, E: FromStream, F: FromStream> Eats
    for (A, B, C, D, E, F) {
    ghost eats = { eats_sextuple A.reading B.reading C.reading D.reading E.reading F.reading A.eats };
}

impl<A: IsZero, B: IsZero, C: IsZero, D: IsZero, E: IsZero, F: IsZero> IsZero
    for (A, B, C, D, E, F) {
    ghost zero = { λ all. A.zero all.0 × B.zero all.1 × C.zero all.2 × D.zero all.3 × E.zero all.4 × F.zero all.5 };

    fn is_zero(&self) -> bool {
        self.0.is_zero()
            && self.1.is_zero()
            && self.2.is_zero()
            && self.3.is_zero()
            && self.4.is_zero()
            && self.5.is_zero()
    }
}
