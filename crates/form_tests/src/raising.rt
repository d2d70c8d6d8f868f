// Raised forms and forms in a context: each call succeeds with ample memory.

use binding_terms::{Cat, CatId, Item, NoMemory, Prod, ProdId, Sig, Text};
use form_raising::{
    applied_judgment, entry_cats, form_in, raised_judgment, raised_metas, raised_rule,
    raised_scheme,
};
use rule_schemes::{JScheme, JudgId, RuleScheme};
use scheme_terms::{MetaDecl, MetaId, Root, SCtx, SEntry, Scheme, Scope, Subst};
use sqlite_items::Items;
use std::alloc::Global;
use std::test::Fail;

const TERM: CatId = CatId(0);

const CONTEXT: CatId = CatId(1);

fn category(alloc: Global, name: &[u8], var: Option<Text>, context: bool) -> Result<Cat, NoMemory> {
    Ok(Cat {
        name: Text::of(alloc, name)?,
        var,
        context,
    })
}

fn terminal(alloc: Global, text: &[u8]) -> Result<Item, NoMemory> {
    Ok(Item::Word {
        text: Text::of(alloc, text)?,
        quoted: false,
    })
}

/// `t ::= unit | x`, `Gamma ::= * | Gamma, x`
fn signature(alloc: Global) -> Result<Option<Sig>, NoMemory> {
    let mut cats = Vec::new(alloc);
    cats.push(category(alloc, b"t", Some(Text::of(alloc, b"x")?), false)?)?;
    cats.push(category(alloc, b"Gamma", None, true)?)?;
    let mut unit = Items::new(alloc);
    unit.push(terminal(alloc, b"unit")?)?;
    let mut empty = Items::new(alloc);
    empty.push(terminal(alloc, b"*")?)?;
    let mut entry = Items::new(alloc);
    entry.push(Item::Slot {
        cat: CONTEXT,
        binds: Items::new(alloc),
    })?;
    entry.push(terminal(alloc, b",")?)?;
    entry.push(Item::Binder(TERM))?;
    let mut prods = Vec::new(alloc);
    prods.push(Prod {
        cat: TERM,
        items: unit,
    })?;
    prods.push(Prod {
        cat: CONTEXT,
        items: empty,
    })?;
    prods.push(Prod {
        cat: CONTEXT,
        items: entry,
    })?;
    if !Sig::fits(&cats, &prods) {
        return Ok(None);
    }
    Ok(Some(Sig::make(alloc, cats, prods)?))
}

/// The name `t`, without arguments.
fn name(alloc: Global) -> Scheme {
    Scheme::Meta(MetaId(0), Items::new(alloc))
}

fn names(alloc: Global) -> Result<Items<MetaDecl>, NoMemory> {
    let mut metas = Items::new(alloc);
    metas.push(MetaDecl {
        name: Text::of(alloc, b"t")?,
        cat: TERM,
        params: Items::new(alloc),
    })?;
    Ok(metas)
}

/// `Gamma |- t`, or over that context.
fn form(alloc: Global, ctx: SCtx) -> Result<JScheme, NoMemory> {
    let mut args = Items::new(alloc);
    args.push(name(alloc))?;
    Ok(JScheme {
        judgment: JudgId(0),
        ctx,
        args,
    })
}

fn bare(alloc: Global) -> SCtx {
    SCtx {
        root: Root::Whole(CONTEXT),
        entries: Items::new(alloc),
    }
}

/// `Gamma, x`
fn one_entry(alloc: Global) -> Result<SCtx, NoMemory> {
    let mut ctx = bare(alloc);
    ctx.entries.push(SEntry {
        prod: ProdId(2),
        args: Items::new(alloc),
    })?;
    Ok(ctx)
}

/// `t` for itself.
fn identity(alloc: Global) -> Result<Subst, NoMemory> {
    let mut metas = Items::new(alloc);
    metas.push(name(alloc))?;
    Ok(Subst {
        metas,
        knowns: Items::new(alloc),
        into: Scope {
            root: Root::Whole(CONTEXT),
            metas: names(alloc)?,
            knowns: Items::new(alloc),
        },
    })
}

fn arguments(scheme: &Scheme) -> usize {
    match scheme {
        Scheme::Meta(_, args) => args.len(),
        _ => 0,
    }
}

fn arguments_of(form: &JScheme) -> usize {
    match form.args.get(0) {
        Some(scheme) => arguments(scheme),
        None => 0,
    }
}

#[test]
fn names_take_the_variable_of_an_entry(rt: HostRuntime) -> Result<(), Fail> {
    let alloc = rt.alloc();
    let sig = signature(alloc)?;
    if let Some(sig) = &sig {
        let ctx = one_entry(alloc)?;
        let cats = entry_cats(alloc, sig, ctx.entries.as_slice())?;
        assert_eq!(rt; cats.len(), 1);
        let own = names(alloc)?;
        let metas = raised_metas(alloc, sig, cats.as_slice(), own.as_slice())?;
        match metas.get(0) {
            Some(decl) => assert_eq!(rt; decl.params.len(), 1),
            None => assert!(rt; false),
        }
        let scheme = raised_scheme(alloc, sig, own.as_slice(), cats.as_slice(), 0, &name(alloc))?;
        assert_eq!(rt; arguments(&scheme), 1);
        let higher = raised_judgment(
            alloc,
            sig,
            own.as_slice(),
            cats.as_slice(),
            &form(alloc, bare(alloc))?,
        )?;
        assert_eq!(rt; arguments_of(&higher), 1);
    }
    assert!(rt; sig.is_some());
    Ok(())
}

#[test]
fn a_rule_is_raised_and_put_into_a_context(rt: HostRuntime) -> Result<(), Fail> {
    let alloc = rt.alloc();
    let sig = signature(alloc)?;
    if let Some(sig) = &sig {
        let ctx = one_entry(alloc)?;
        let cats = entry_cats(alloc, sig, ctx.entries.as_slice())?;
        let rule = RuleScheme {
            name: Text::of(alloc, b"r")?,
            metas: names(alloc)?,
            premises: Items::new(alloc),
            conclusion: form(alloc, bare(alloc))?,
        };
        let higher = raised_rule(alloc, sig, cats.as_slice(), &rule)?;
        assert_eq!(rt; arguments_of(&higher.conclusion), 1);
        let placed = form_in(alloc, &ctx, &identity(alloc)?, &rule.conclusion)?;
        assert_eq!(rt; placed.ctx.entries.len(), 1);
        let same = applied_judgment(alloc, &identity(alloc)?, &form(alloc, ctx)?)?;
        assert_eq!(rt; same.ctx.entries.len(), 1);
    }
    assert!(rt; sig.is_some());
    Ok(())
}
