//! Symbols, keys and literals as rows write them.

use anyhow::{Result, bail};
use cm_cond::{CellTerm, KeyTerm, Literal, Ord3};
use cm_model::List;
use cm_term::{Root, Step, Sym, SymPath};
use std::alloc::Global;

// The words of a cell or literal.
#[derive(Clone, Copy)]
pub struct Item<'a> {
    pub kind: &'a str,
    pub first: &'a str,
    pub second: &'a str,
    pub third: &'a str,
    pub fourth: &'a str,
}

/// The words of a text.
pub fn item_of(text: &str) -> Item<'_> {
    let mut words = text.split_whitespace();
    Item {
        kind: words.next().unwrap_or(""),
        first: words.next().unwrap_or(""),
        second: words.next().unwrap_or(""),
        third: words.next().unwrap_or(""),
        fourth: words.next().unwrap_or(""),
    }
}

fn root(word: &str) -> Result<Root> {
    if let Some(place) = word.strip_prefix('a') {
        return Ok(Root::A(place.parse::<u16>()?));
    }
    if let Some(place) = word.strip_prefix('b') {
        return Ok(Root::B(place.parse::<u16>()?));
    }
    match word.strip_prefix('c') {
        Some(cell) => Ok(Root::Cell(cell.parse::<u8>()?)),
        None => bail!("no symbol: {word}"),
    }
}

fn step(word: &str) -> Result<Step> {
    if word == "s" {
        return Ok(Step::Payload);
    }
    Ok(Step::Field(word.parse::<u16>()?))
}

fn path(alloc: Global, steps: &str) -> Result<SymPath> {
    let mut path = SymPath::new(alloc);
    for word in steps.split('.') {
        path = path.then(step(word)?)?;
    }
    Ok(path)
}

fn symbol(alloc: Global, word: &str) -> Result<Sym> {
    match word.split_once('.') {
        Some((first, steps)) => Ok(Sym {
            root: root(first)?,
            path: path(alloc, steps)?,
        }),
        None => Ok(Sym {
            root: root(word)?,
            path: SymPath::new(alloc),
        }),
    }
}

fn plain_key(alloc: Global, word: &str) -> Result<KeyTerm> {
    if let Some(sym) = word.strip_prefix("e:") {
        return Ok(KeyTerm::Elem(symbol(alloc, sym)?));
    }
    if let Some(sym) = word.strip_prefix("t:") {
        return Ok(KeyTerm::TagOf(symbol(alloc, sym)?));
    }
    if let Some(index) = word.strip_prefix("v:") {
        return Ok(KeyTerm::Tag(index.parse::<u16>()?));
    }
    number_key(alloc, word)
}

fn number_key(alloc: Global, word: &str) -> Result<KeyTerm> {
    match word.split_once('~') {
        Some((sym, plus)) => {
            let plus = plus.parse::<i64>()?;
            let x = Some(symbol(alloc, sym)?);
            Ok(KeyTerm::Num { x, plus })
        }
        None => Ok(KeyTerm::Num {
            x: None,
            plus: word.parse::<i64>()?,
        }),
    }
}

fn key(alloc: Global, word: &str) -> Result<KeyTerm> {
    if !word.contains(',') {
        return plain_key(alloc, word);
    }
    let mut parts = List::new(alloc);
    for part in word.split(',') {
        parts.push(plain_key(alloc, part)?)?;
    }
    Ok(KeyTerm::Rec(parts))
}

/// The cell that an item stands for.
pub fn cell(alloc: Global, item: Item<'_>) -> Result<CellTerm> {
    let state = item.first.parse::<u16>()?;
    if item.second.is_empty() {
        return Ok(CellTerm { state, key: None });
    }
    let key = Some(key(alloc, item.second)?);
    Ok(CellTerm { state, key })
}

fn order(word: &str) -> Result<Ord3> {
    match word {
        "<" => Ok(Ord3::Less),
        "=" => Ok(Ord3::Equal),
        ">" => Ok(Ord3::Greater),
        _ => bail!("no order: {word}"),
    }
}

fn same(alloc: Global, item: Item<'_>) -> Result<Literal> {
    let x = symbol(alloc, item.first)?;
    let y = symbol(alloc, item.second)?;
    Ok(Literal::Same { x, y })
}

fn differ(alloc: Global, item: Item<'_>) -> Result<Literal> {
    let x = symbol(alloc, item.first)?;
    let y = symbol(alloc, item.second)?;
    Ok(Literal::Differ { x, y })
}

fn ordered(alloc: Global, item: Item<'_>) -> Result<Literal> {
    let plus = item.second.parse::<i64>()?;
    let op = order(item.third)?;
    let x = symbol(alloc, item.first)?;
    let y = symbol(alloc, item.fourth)?;
    Ok(Literal::Order { x, plus, op, y })
}

fn against(alloc: Global, item: Item<'_>) -> Result<Literal> {
    let op = order(item.second)?;
    let n = item.third.parse::<i64>()?;
    let x = symbol(alloc, item.first)?;
    Ok(Literal::Against { x, op, n })
}

fn within(alloc: Global, item: Item<'_>) -> Result<Literal> {
    let plus = item.second.parse::<i64>()?;
    let lo = item.third.parse::<i64>()?;
    let hi = item.fourth.parse::<i64>()?;
    let x = symbol(alloc, item.first)?;
    Ok(Literal::Within { x, plus, lo, hi })
}

fn variant(alloc: Global, item: Item<'_>) -> Result<Literal> {
    let index = item.second.parse::<u16>()?;
    let x = symbol(alloc, item.first)?;
    Ok(Literal::Tag { x, index })
}

/// The literal that an item stands for.
pub fn literal(alloc: Global, item: Item<'_>) -> Result<Literal> {
    match item.kind {
        "same" => same(alloc, item),
        "differ" => differ(alloc, item),
        "order" => ordered(alloc, item),
        "against" => against(alloc, item),
        "within" => within(alloc, item),
        "tag" => variant(alloc, item),
        "none" => Ok(Literal::IsNone(symbol(alloc, item.first)?)),
        "some" => Ok(Literal::IsSome(symbol(alloc, item.first)?)),
        _ => bail!("no literal: {}", item.kind),
    }
}
