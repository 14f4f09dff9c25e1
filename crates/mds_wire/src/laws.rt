//! What follows from the meaning of bytes.

ghost use Rattle.mds_wire.specs.Laws.{HeadDecides, Headless, OnlySteps};

use crate::serve::Handler;

/// Laws on what bytes mean. A head decides it. Bytes without a head are answered 400 or 431, and change nothing. Only a step of
/// a whole request changes anything. 503 without a step is answered only if memory is taken before it.
pub fn laws_of<H: Handler>()
    ensures head { HeadDecides H.step H.same H.takes_memory }
    ensures headless { Headless H.step H.same H.takes_memory }
    ensures steps { OnlySteps H.step H.same H.takes_memory }
{}
