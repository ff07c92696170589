//! Functions and calls are checked.

ghost use Rattle.std.specs.Prelude.{◌≡◌, ◌≤◌, IfOk, OnOk, false, length};
ghost use Rattle.cm_syntax.specs.declared.tree.Decl.TheVariants as decl;
ghost use Rattle.cm_typing.specs.Told.{Answers};
ghost use Rattle.cm_typing.specs.Names.{is_taken};
ghost use Rattle.cm_typing.specs.Declarations as Declarations;
ghost use Rattle.cm_typing.specs.Declarations.{decl_told, params_told, all_params_told, body_told, routine_told};
ghost use Rattle.cm_typing.specs.Declarations.{inside, reply_in, no_params};

use crate::decl::copy_name;
use crate::fault::{refused, rule};
use crate::flat::{are_parameters, ty_of};
use crate::types::check_type;
use crate::weights::weigh_body;
use crate::{Body, Draft, Entry, Flat, Names, Params, Routine, Scope, TypeFault, rules};
use cm_model::limits::{BODY_WEIGHT, CALLS, FUNCTIONS, PARAMETERS_WIDTH};
use cm_model::{Call, List, Name, NoMemory, Place, Stmt};
use cm_syntax::{Block, Part, Type};
use std::alloc::Global;

fn make_routine(
    alloc: Global,
    name: &Name,
    outer: u16,
    params: Params,
    reply: Option<Flat>,
    body: Body,
) -> Result<Routine, NoMemory>
    ensures { IfOk result (λ r. r ≡ Declarations.routine name.now outer params reply body) }
{
    let Params { parts, types } = params;
    let Body { steps, weight } = body;
    let name = copy_name(alloc, name)?;
    let ty = ty_of(alloc, reply)?;
    let call = Call {
        name,
        params: parts,
        outer,
        reply: ty,
        body: steps,
    };
    Ok(Routine {
        call,
        types,
        reply,
        weight,
    })
}

impl Scope {
    // A parameter, behind those that are done.
    fn check_param(
        &self,
        alloc: Global,
        part: &Part,
        done: &mut Params,
        locals: &mut Names,
    ) -> Result<(), TypeFault>
        ensures answers { Answers (Declarations.param_told done.old part.now self.now locals.old)
            (λ u. (done.new, locals.new)) result }
        ensures few { OnOk result (length locals.new ≤ 64) }
    {
        self.check_unbound(locals, part.at, &part.name)?;
        let len = locals.len();
        rule(len < PARAMETERS_WIDTH as usize, rules::MANY, self.at)?;
        let ty = check_type(&self.names, &part.value)?;
        done.push(alloc, &part.name, ty)?;
        let number = len as u16;
        locals.push(alloc, &part.name, Entry::Local { number, ty })?;
        Ok(())
    }

    fn check_params(
        &self,
        alloc: Global,
        parts: &[Part],
        done: &mut Params,
        locals: &mut Names,
    ) -> Result<(), TypeFault>
        requires { length locals.old ≤ 64 }
        ensures answers { Answers (params_told done.old parts.now self.now locals.old)
            (λ u. (done.new, locals.new)) result }
        ensures few { OnOk result (length locals.new ≤ 64) }
    {
        for part in parts {
            self.check_param(alloc, part, done, locals)?;
        }
        Ok(())
    }

    // Outer parameters and internal ones. The answer is how many are outer.
    fn check_all_params(
        &self,
        alloc: Global,
        params: &[Part],
        internal: &[Part],
        done: &mut Params,
        locals: &mut Names,
    ) -> Result<u16, TypeFault>
        requires { length locals.old ≤ 64 }
        ensures { Answers (all_params_told params.now internal.now done.old self.now locals.old)
            (λ outer. (outer, done.new, locals.new)) result }
    {
        self.check_params(alloc, params, done, locals)?;
        let outer = locals.len() as u16;
        self.check_params(alloc, internal, done, locals)?;
        rule(are_parameters(done.types.as_slice()), rules::MANY, self.at)?;
        Ok(outer)
    }

    // A block that always returns.
    fn check_returning(
        &self,
        alloc: Global,
        locals: &mut Names,
        block: &Block,
    ) -> Result<List<Stmt>, TypeFault>
        ensures { Answers (Declarations.returning_told block.now self.now locals.old) (λ v. v) result }
    {
        let steps = self.check_block(alloc, locals, block)?;
        rule(steps.returns, rules::RETURNS, block.at)?;
        Ok(steps.steps)
    }

    // The weight of a body that is not too heavy.
    #[tactic(auto, using(crate::proofs::Counting::counted_small))]
    fn check_weight(&self, steps: &[Stmt]) -> Result<u32, TypeFault>
        ensures { Answers (Declarations.weight_told steps.now self.now) (λ v. v) result }
    {
        let weight = weigh_body(self.weights.as_slice(), steps);
        if weight <= u64::from(BODY_WEIGHT) {
            Ok(weight as u32)
        } else {
            Err(refused(rules::HEAVY, self.at))
        }
    }

    fn check_body(
        &self,
        alloc: Global,
        locals: &mut Names,
        block: &Block,
    ) -> Result<Body, TypeFault>
        ensures { Answers (body_told block.now self.now locals.old) (λ v. v) result }
    {
        let steps = self.check_returning(alloc, locals, block)?;
        let weight = self.check_weight(steps.as_slice())?;
        Ok(Body { steps, weight })
    }

    // A body with a reply of this type.
    fn check_replying(
        &mut self,
        alloc: Global,
        locals: &mut Names,
        block: &Block,
        reply: Option<Flat>,
    ) -> Result<Body, TypeFault>
        ensures answers { Answers (body_told block.now (reply_in self.old reply) locals.old) (λ v. v) result }
        ensures same { OnOk result (self.new ≡ self.old) }
    {
        let before = self.reply;
        self.reply = reply;
        let body = self.check_body(alloc, locals, block)?;
        self.reply = before;
        Ok(body)
    }

    // A function or a call, where these names may be used.
    fn check_routine(
        &mut self,
        alloc: Global,
        name: &Name,
        params: &[Part],
        internal: &[Part],
        reply: &Type,
        block: &Block,
    ) -> Result<Routine, TypeFault>
        ensures answers { Answers (routine_told name.now params.now internal.now reply.now block.now self.old)
            (λ v. v) result }
        ensures same { OnOk result (self.new ≡ self.old) }
    {
        let mut done = Params::new(alloc);
        let mut locals = Names::new(alloc);
        let outer = self.check_all_params(alloc, params, internal, &mut done, &mut locals)?;
        let reply = check_type(&self.names, reply)?;
        let body = self.check_replying(alloc, &mut locals, block, reply)?;
        Ok(make_routine(alloc, name, outer, done, reply, body)?)
    }

    // A function or a call, in which its own name is taken and may not be used.
    fn check_hidden(
        &mut self,
        alloc: Global,
        at: Place,
        name: &Name,
        params: &[Part],
        internal: &[Part],
        reply: &Type,
        block: &Block,
    ) -> Result<Routine, TypeFault>
        requires { is_taken name.now self.old.names ≡ false }
        ensures answers { Answers (routine_told name.now params.now internal.now reply.now block.now (inside self.old at
            name.now))
            (λ v. v) result }
        ensures same { OnOk result (self.new ≡ self.old) }
    {
        let before = self.at;
        let len = self.names.len();
        self.at = at;
        self.names.push(alloc, name, Entry::Unusable)?;
        let routine = self.check_routine(alloc, name, params, internal, reply, block)?;
        self.names.cut(len);
        self.at = before;
        Ok(routine)
    }

    // The function that was checked is declared.
    fn add_function(
        &mut self,
        alloc: Global,
        draft: &mut Draft,
        name: &Name,
        number: u16,
        routine: Routine,
    ) -> Result<(), NoMemory>
        requires { is_taken name.now self.old.names ≡ false }
        ensures scope { OnOk result (self.new ≡ Declarations.with_function self.old name.now number routine) }
        ensures draft { OnOk result (draft.new ≡ Declarations.funs_with draft.old routine.call) }
    {
        let Routine {
            call,
            types,
            reply,
            weight,
        } = routine;
        let entry = Entry::Function {
            number,
            params: types,
            reply,
        };
        self.names.push(alloc, name, entry)?;
        self.weights.push(weight)?;
        draft.funs.push(call)?;
        Ok(())
    }

    pub(crate) fn check_function(
        &mut self,
        alloc: Global,
        draft: &mut Draft,
        at: Place,
        name: &Name,
        params: &[Part],
        reply: &Type,
        block: &Block,
    ) -> Result<(), TypeFault>
        ensures { Answers (decl_told (decl.Function at name.now params.now reply.now block.now) self.old draft.old)
            (λ u. (self.new, draft.new)) result }
    {
        let number = self.next_named(at, name, draft.funs.len(), FUNCTIONS)?;
        let routine = self.check_hidden(alloc, at, name, params, &[], reply, block)?;
        self.add_function(alloc, draft, name, number, routine)?;
        Ok(())
    }

    pub(crate) fn check_call_decl(
        &mut self,
        alloc: Global,
        draft: &mut Draft,
        at: Place,
        name: &Name,
        params: &[Part],
        internal: &[Part],
        reply: &Type,
        block: &Block,
    ) -> Result<(), TypeFault>
        ensures { Answers (decl_told (decl.Call at name.now params.now internal.now reply.now block.now) self.old
            draft.old)
            (λ u. (self.new, draft.new)) result }
    {
        self.next_named(at, name, draft.calls.len(), CALLS)?;
        let routine = self.check_hidden(alloc, at, name, params, internal, reply, block)?;
        self.names.push(alloc, name, Entry::Unusable)?;
        draft.calls.push(routine.call)?;
        Ok(())
    }
}
